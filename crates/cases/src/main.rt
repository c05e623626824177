// The stored inputs of data/, through the finder, through the finder that goes on, through `every`, and through `cnf`.
#![tactic(auto)]

use std::fs::File;
use std::io;

// The file of that name, or a line that says that there is none.
fn open(rt: &HostRuntime, name: &str) -> io::Result<Option<File>> {
    match File::open(rt, name) {
        Ok(file) => Ok(Some(file)),
        Err(_) => {
            println!(rt; "no file")?;
            Ok(None)
        }
    }
}

fn find(rt: &HostRuntime, name: &str) -> io::Result<()> {
    println!(rt; "finder {name}")?;
    if let Some(mut file) = open(rt, name)? {
        console_finder::find(&mut file, rt.stdout(), rt.stderr());
    }
    Ok(())
}

fn find_on(rt: &HostRuntime, name: &str) -> io::Result<()> {
    println!(rt; "finder_on {name}")?;
    if let Some(mut file) = open(rt, name)? {
        console_finder_on::find_on(&mut file, rt.stdout(), rt.stderr());
    }
    Ok(())
}

fn every(rt: &HostRuntime, name: &str) -> io::Result<()> {
    println!(rt; "every {name}")?;
    if let Some(mut file) = open(rt, name)? {
        console_every::every(&mut file, rt.stdout(), rt.stderr());
    }
    Ok(())
}

fn clauses(rt: &HostRuntime, name: &str) -> io::Result<()> {
    println!(rt; "cnf {name}")?;
    if let Some(mut file) = open(rt, name)? {
        let mut list = [0i32; 262144];
        let mut text = [0u8; 1835022];
        console_cnf::print_clauses(&mut file, &mut list, &mut text, rt.stdout(), rt.stderr());
    }
    Ok(())
}

fn both(rt: &HostRuntime, name: &str) -> io::Result<()> {
    find(rt, name)?;
    clauses(rt, name)
}

fn searches(rt: &HostRuntime) -> io::Result<()> {
    find(rt, "cycle")?;
    find(rt, "spent")?;
    find_on(rt, "spent")?;
    find_on(rt, "rows")?;
    find_on(rt, "closure_8")?;
    find(rt, "closure_8")
}

fn main(rt: HostRuntime) -> io::Result<()> {
    let names = [
        "k1",
        "k2",
        "k3",
        "k5",
        "k6",
        "k7",
        "k8",
        "k8_nine",
        "k9",
        "k10",
        "rows",
        "bytes_4096",
        "bytes_4097",
    ];
    for name in names {
        both(&rt, name)?;
    }
    searches(&rt)?;
    both(&rt, "some_4096")?;
    both(&rt, "closures_12")?;
    every(&rt, "k1")?;
    every(&rt, "k3")?;
    every(&rt, "closure_8")?;
    both(&rt, "k1_up_to_2")?;
    every(&rt, "k1_up_to_2")
}
