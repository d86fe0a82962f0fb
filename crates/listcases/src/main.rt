// Lists the sheets in the files that its arguments name, one after another.

#![tactic(auto)]

use listing::list;
use std::{env, fs};

fn main(rt: HostRuntime) -> anyhow::Result<()> {
    for name in env::args(&rt)?.skip(1) {
        let bytes = fs::read(&rt, name.as_str())?;
        let text = list(rt.alloc(), bytes.as_slice())?;
        println!(rt; "{name}")?;
        rt.print(text)?;
    }
    Ok(())
}
