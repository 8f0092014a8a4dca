// Bench cases K, L and M run through the jobs. A line has the case and the job, then the number, the place, the decisions and the rows of its
// report, and the bytes lent, which held 7 before.
#![tactic(auto)]

use problem::Report;
use std::io;

fn run<F: FnOnce(&[u8], u32, &mut [u8]) -> Report>(
    rt: &HostRuntime,
    name: &str,
    file: &[u8],
    job: F,
) -> io::Result<()>
    requires { F.IsAlwaysCallable job }
{
    let mut lent = [7u8; 2];
    let r = job(file, 1000, &mut lent);
    println!(rt;
        "{name} {} {} {} {}: {} {}",
        r.number, r.place, r.decisions, r.rows, lent[0], lent[1]
    )
}

fn main(rt: HostRuntime) -> io::Result<()> {
    let k =
        b"\x04\x00\x01\x00\x01\x00\x00\x00\x02\x00\x02\x00\x01\x00\x02\x00\x02\x00\xff\xff\x04\x00\x03\x00\xfe\xff\x01\x00\x04\x00\x03\x00\x02\x00\xff\xff\x02\x00\x04\x00\xff\xff\x00\x00\x05\x00\x00\x00\x06\x00";
    run(
        &rt,
        "K largest",
        k,
        |f, n, lent| jobs::mark_largest(f, n, lent),
    )?;
    run(&rt, "K one", k, |f, n, lent| jobs::mark_one(f, n, lent))?;
    run(&rt, "K list", k, |f, n, lent| jobs::list_all(f, n, lent))?;
    let l =
        b"\x04\x00\x01\x00\x01\x00\x00\x00\x02\x00\x02\x00\x01\x00\x04\x00\x03\x00\xfe\xff\x01\x00\x04\x00\x03\x00\x02\x00\xff\xff\x02\x00\x04\x00\xff\xff\x02\x00\x05\x00\x01\x00\x00\x00\x06\x00";
    run(
        &rt,
        "L largest",
        l,
        |f, n, lent| jobs::mark_largest(f, n, lent),
    )?;
    run(&rt, "L one", l, |f, n, lent| jobs::mark_one(f, n, lent))?;
    run(&rt, "L list", l, |f, n, lent| jobs::list_all(f, n, lent))?;
    let cut =
        b"\x04\x00\x01\x00\x01\x00\x00\x00\x02\x00\x02\x00\x01\x00\x04\x00\x03\x00\xfe\xff\x01\x00\x04\x00\x03\x00\x02\x00\xff\xff\x02\x00\x04\x00\xff\xff\x02\x00\x05\x00\x01\x00\x00\x00\x06";
    run(
        &rt,
        "L cut one",
        cut,
        |f, n, lent| jobs::mark_one(f, n, lent),
    )?;
    run(
        &rt,
        "L cut list",
        cut,
        |f, n, lent| jobs::list_all(f, n, lent),
    )?;
    let longer =
        b"\x04\x00\x01\x00\x01\x00\x00\x00\x02\x00\x02\x00\x01\x00\x04\x00\x03\x00\xfe\xff\x01\x00\x04\x00\x03\x00\x02\x00\xff\xff\x02\x00\x04\x00\xff\xff\x02\x00\x05\x00\x01\x00\x00\x00\x06\x00\x00";
    run(
        &rt,
        "L longer one",
        longer,
        |f, n, lent| jobs::mark_one(f, n, lent),
    )?;
    run(
        &rt,
        "L longer list",
        longer,
        |f, n, lent| jobs::list_all(f, n, lent),
    )?;
    let least = b"\x04\x00\x01\x00\x01\x00\x00\x00\x02\x00\x05\x00\x00\x80\x00\x00\x06\x00";
    run(
        &rt,
        "M -32768 one",
        least,
        |f, n, lent| jobs::mark_one(f, n, lent),
    )?;
    Ok(())
}
