// The bench cases of a problem file that are run and compared: L whole, cut and longer, and both sides of each of M's limits, with that of
// 4,096 clauses beside them. A line has the case's name, then the number, the place, n, m and k of the checking job's report.
#![tactic(auto)]

ghost use Rattle.std.specs.Prelude.{◌≤◌};

use std::io;

fn show(rt: &HostRuntime, name: &str, file: &[u8]) -> io::Result<()> {
    let r = problem::check(file);
    println!(rt; "{name} {} {} {} {} {}", r.number, r.place, r.n, r.m, r.k)
}

// The first bytes of a file.
fn show_front(rt: &HostRuntime, name: &str, file: &[u8], n: usize) -> io::Result<()> {
    if n <= file.len() {
        return show(rt, name, &file[..n]);
    }
    Ok(())
}

// A file of n state variables, `count` records of a kind with no literals, and the end. It starts as zeros, so that only the other bytes are
// written.
fn fill(n: u8, kind: u8, count: usize, file: &mut [u8; 16400])
    requires { count ≤ 4097 }
{
    file[0] = 4;
    file[2] = 1;
    file[4] = n;
    for i in 0..count {
        file[10 + 4 * i] = kind;
    }
    file[10 + 4 * count] = 6;
}

fn show_filled(rt: &HostRuntime, name: &str, n: u8, kind: u8, count: usize) -> io::Result<()>
    requires { count ≤ 4097 }
{
    let mut file = [0u8; 16400];
    fill(n, kind, count, &mut file);
    show_front(rt, name, &file, 12 + 4 * count)
}

fn main(rt: HostRuntime) -> io::Result<()> {
    let l =
        b"\x04\x00\x01\x00\x01\x00\x00\x00\x02\x00\x02\x00\x01\x00\x04\x00\x03\x00\xfe\xff\x01\x00\x04\x00\x03\x00\x02\x00\xff\xff\x02\x00\x04\x00\xff\xff\x02\x00\x05\x00\x01\x00\x00\x00\x06\x00\x00";
    show_front(&rt, "L", l, 46)?;
    show_front(&rt, "L-cut", l, 45)?;
    show(&rt, "L-longer", l)?;
    show_filled(&rt, "n-96", 96, 5, 0)?;
    show_filled(&rt, "n-97", 97, 5, 0)?;
    show_filled(&rt, "lemmas-128", 1, 5, 128)?;
    show_filled(&rt, "lemmas-129", 1, 5, 129)?;
    show_filled(&rt, "clauses-4096", 1, 2, 4096)?;
    show_filled(&rt, "clauses-4097", 1, 2, 4097)?;
    show(
        &rt,
        "literal-least",
        b"\x04\x00\x01\x00\x01\x00\x00\x00\x02\x00\x05\x00\x00\x80\x00\x00\x06\x00",
    )?;
    Ok(())
}
