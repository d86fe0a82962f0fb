// Prints what the sheet on standard input says.

#![tactic(auto)]

use listing::list;
use std::io::Read;

fn main(rt: HostRuntime) -> anyhow::Result<()> {
    let mut bytes = Vec::new(rt.alloc());
    rt.stdin().read_to_end(&mut bytes)?;
    rt.print(list(rt.alloc(), bytes.as_slice())?)?;
    Ok(())
}
