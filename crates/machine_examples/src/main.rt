// Runs of the machine: document 01's address examples, where a run stops, and small kernels over memory.
#![tactic(auto)]

mod kernels;
mod limits;
mod show;

fn main(rt: HostRuntime) {
    let err = rt.stderr();
    limits::all(&rt, &err);
    kernels::all(&rt, &err);
}
