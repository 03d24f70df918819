//! The program `vbr_example`: four ways to use the set. Workers in threads of their own share one and
//! claim pages by it; one worker tells another of a page that it claimed; one goes over all pages and frees
//! them; and workers play a script that stands in a file, and then one of a map.
#![tactic(auto)]

mod claiming;
mod sweeping;
mod telling;
mod worker;

use std::fs::File;
use vbr_run::{Config, NoGate, play, play_map};
use vbr_set::{MAX_EPOCH, Shape};

fn main(rt: HostRuntime) -> anyhow::Result<()> {
    let (claimed, report) = claiming::claim_pages(&rt, rt.alloc())?;
    println!(rt; "{claimed} pages were claimed. In the set are:")?;
    for page in &report.keys {
        println!(rt; "{page}")?;
    }

    let found = telling::tell_page(&rt, rt.alloc(), 34)?;
    println!(rt; "A worker told another of page 34, which was found: {found}")?;

    let swept = sweeping::sweep_pages(&rt, rt.alloc())?;
    println!(rt; "A worker came upon {swept} pages, and freed them")?;

    let config = Config::new(Shape::new(64, 16, MAX_EPOCH)?, 3, 100_000, false)?;
    let mut script = File::open(&rt, "phases.script")?;
    let mut output = rt.stdout();
    play(&rt, rt.alloc(), config, &mut script, &mut output, &NoGate)?;

    let mut script = File::open(&rt, "map.script")?;
    play_map(&rt, rt.alloc(), config, &mut script, &mut output, &NoGate)?;
    Ok(())
}
