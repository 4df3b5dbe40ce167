//! A small service: four threads count visits in one database. The service reads the database from its two files and writes
//! it to them again. It then reads the written files and prints their pairs.
#![tactic(auto)]

mod files;
mod visits;

use boddurci::{Closed, Image, NoGate, Store};
use files::{read_image, write_image};
use std::alloc::Global;
use std::process::ExitCode;
use std::rt::Runtime;
use std::sync::Wait;
use std::thread::Threads;
use visits::{all_visits, counter};

// Opens a store over the database, lets all threads count their visits, and closes the store.
fn serve<R: AllocGlobal + Threads + Wait + Sync>(
    rt: &R,
    image: Image<Global>,
) -> Result<Image<Global>, &'static str> {
    let alloc = rt.alloc();
    let prog = counter(alloc).ok_or("the program is not accepted")?;
    let Ok(store) = Store::open(alloc, image, visits::ALL, NoGate) else {
        return Err("no memory for the trail's opening");
    };
    let calls = all_visits(rt, alloc, &store, &prog)?;
    match store.close(calls) {
        Ok(Closed { image, .. }) => Ok(image),
        Err(_) => Err("calls are missing"),
    }
}

// Prints each key with its number.
fn show<R: Runtime>(rt: &R, image: &Image<Global>) -> Result<(), &'static str> {
    let pairs = image.pairs().map_err(|_| "no memory for the pairs")?;
    for (key, value) in &pairs {
        let name = str::from_utf8(key.as_slice()).unwrap_or("?");
        let visits = visits::number(value.as_slice());
        println!(rt; "{name}: {visits}").map_err(|_| "nothing can be printed")?;
    }
    Ok(())
}

fn run<R: Runtime + AllocGlobal + Threads + Wait + Sync>(rt: &R) -> Result<(), &'static str> {
    let image = serve(rt, read_image(rt)?)?;
    write_image(rt, &image)?;
    show(rt, &read_image(rt)?)
}

fn main(rt: HostRuntime) -> ExitCode {
    let Err(fault) = run(&rt) else {
        return ExitCode::SUCCESS;
    };
    let _ = eprintln!(rt; "example_threads: {fault}");
    ExitCode::FAILURE
}
