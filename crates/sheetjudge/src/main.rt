#![tactic(auto)]

// Says where a rule holds on a sheet: `sheetjudge TABLE SHEET`, two file names.
mod files;

use files::{NAME, open_both};
use sheets::Sheet;
use std::env::FillError;
use std::io;
use std::io::Read;
use std::rt::Env;
use table::Table;

// Whether the program was started with two arguments, neither more nor fewer.
fn is_given_two(rt: &impl Env) -> bool {
    let mut start = [0u8; 1];
    is_there(rt.arg(2, &mut start)) && !is_there(rt.arg(3, &mut start))
}

fn is_there(argument: Result<usize, FillError>) -> bool {
    !matches!(argument, Err(FillError::NotPresent))
}

fn judge_files<R: Print, F: Read + Drop>(rt: &R, mut table: F, mut sheet: F) -> io::Result<()> {
    let mut rule = [0u8; Table::TEXT];
    let n = show::read_full(&mut table, &mut rule)?;
    let mut lines = [0u8; Sheet::TEXT];
    let m = show::read_full(&mut sheet, &mut lines)?;
    show::show_judged(&mut io::writer(rt), &rule[..n], &lines[..m])
}

fn main(rt: HostRuntime) -> io::Result<()> {
    if !is_given_two(&rt) {
        return eprintln!(rt; "usage: sheetjudge TABLE SHEET");
    }
    let (mut first, mut second) = ([0u8; NAME], [0u8; NAME]);
    match open_both(&rt, &mut first, &mut second) {
        Ok((table, sheet)) => judge_files(&rt, table, sheet),
        Err(fault) => fault.say(&rt),
    }
}
