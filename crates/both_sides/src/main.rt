// Both sides of every limit of the paper, asked of the public calls alone. A line says in words what is asked, and then
// what was answered and left in each buffer; the stored output is worked from the paper by hand.
#![tactic(auto)]

mod addresses;
mod case;
mod feeds;
mod forged;
mod lines;
mod opening;
mod releases;
mod report;
mod rows;
mod scribbled;
mod sizes;
mod watched;

fn main(rt: HostRuntime) {
    let out = &rt;
    opening::run(out);
    lines::run(out);
    report::run(out);
    sizes::run(out);
    addresses::run(out);
    rows::run(out);
    releases::run(out);
    forged::run(out);
    scribbled::run(out);
}
