// Prints what the task reader makes of standard input: REFUSED and the number, or READ and the numbers of both models and
// of the start position. For tests against the reference.
#![tactic(auto)]

use fra::{Edge, Model, Position, Task};
use std::io;

fn print_edge(rt: &impl Print, e: Edge) -> io::Result<()> {
    print!(rt;
        " {} {} {} {} {}",
        e.from,
        e.tag,
        e.kind.number(),
        e.kind.register(),
        e.to
    )
}

fn print_states(rt: &impl Print, m: Model) -> io::Result<()> {
    for state in m.states.iter().take(usize::from(m.state_count)) {
        print!(rt; " {} {}", state.set, state.mark)?;
    }
    Ok(())
}

fn print_edges(rt: &impl Print, m: Model) -> io::Result<()> {
    for edge in m.edges.iter().take(usize::from(m.edge_count)) {
        print_edge(rt, *edge)?;
    }
    Ok(())
}

fn print_model(rt: &impl Print, m: Model) -> io::Result<()> {
    print!(rt;
        " {} {} {} {}",
        m.registers, m.state_count, m.start, m.edge_count
    )?;
    print_states(rt, m)?;
    print_edges(rt, m)
}

fn print_position(rt: &impl Print, p: Position) -> io::Result<()> {
    print!(rt; " {} {}", p.left, p.right)?;
    for partner in p.partners {
        print!(rt; " {partner}")?;
    }
    print!(rt; " {}", p.history)
}

fn print_task(rt: &impl Print, t: Task) -> io::Result<()> {
    print!(rt; "READ")?;
    print_model(rt, t.left)?;
    print_model(rt, t.right)?;
    print_position(rt, t.start)?;
    println!(rt; "")
}

// The longest input that is read.
const LONGEST: usize = 131072;

fn main(rt: HostRuntime) -> io::Result<()> {
    let mut buffer = [0u8; LONGEST];
    let n = reading::read_full(&mut rt.reader(), &mut buffer)?;
    match task_reader::read_task(&buffer[..n]) {
        Ok(task) => print_task(&rt, task),
        Err(refusal) => println!(rt; "REFUSED {}", u8::from(refusal)),
    }
}
