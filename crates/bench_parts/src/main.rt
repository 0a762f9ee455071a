//! `bench_parts` carries out a part of the program by itself, so that it can be timed:
//!
//! - `decode FILE TIMES` decodes the bytes of a file from start to end, TIMES times over, and prints how many
//!   instructions it met, and how many bytes at which nothing decodes, in all.
//! - `place SECTIONS GAPS` places so many sections among so many gaps, which it makes itself, and prints the sum of
//!   their places.
//! - `stands DWORDS RANGES FIRST LAST TIMES` looks TIMES times at a thread on a stack of so many dwords for addresses
//!   of so many ranges, the first at the address FIRST and the last at LAST, all made by itself (`stacks.rt`), and
//!   prints where the one dword stands that is such an address, the stack's last.
//! - `search DWORDS RANGES FIRST LAST TIMES` finds that dword by a plain loop over the dwords.
//! - `match OBJECT IMAGE SECTION ADDRESS` compares the code of a section of an object file once with what stands at an
//!   address of an image file, the home and the base of the function, and prints `ok` with the length of the running
//!   body and how many claims and interiors it has, or what was refused.
//! - `again IMAGE SCRIPT PRE POST` makes an update of the program of an image from one object file to another, after
//!   the lines of a script without `apply`, and prints the reply to it. Where memory runs out it tries the update once
//!   more on the system as it is, so that this is its second try.
//!
//! Numbers and addresses are decimal.
#![tactic(auto)]

mod applying;
mod comparing;
mod counting;
mod placing;
mod searching;
mod stacks;
mod standing;

use crate::applying::line_of_update;
use crate::comparing::line_of;
use crate::counting::{Tally, count_times};
use crate::placing::sum_of_places;
use crate::searching::place_by_halving;
use crate::stacks::Trial;
use crate::standing::place_on_stack;
use std::io::{self, ErrorKind};
use std::process::ExitCode;
use std::{env, fs};

/// What the words ask for.
#[derive(Clone, Copy)]
enum Asked<'w> {
    /// To decode a file so many times.
    Decode {
        file: &'w str,
        times: u32,
    },
    /// To place so many sections among so many gaps.
    Place {
        sections: u32,
        gaps: u32,
    },
    /// To look at a thread on a stack for addresses of ranges.
    Stands(Trial),
    /// To find the same by a plain loop over the stack's dwords.
    Search(Trial),
    /// To compare a section of an object with what stands at an address of an image.
    Match {
        object: &'w str,
        image: &'w str,
        section: &'w str,
        address: u32,
    },
    /// To make an update after a script, once more where memory ran out.
    Again {
        image: &'w str,
        script: &'w str,
        pre: &'w str,
        post: &'w str,
    },
}

/// The numbers of a trial; `None` where they have no reading.
fn read_trial(words: &[String]) -> Option<Trial> {
    let [dwords, ranges, first, last, times] = words else {
        return None;
    };
    Some(Trial {
        dwords: dwords.parse::<u32>().ok()?,
        ranges: ranges.parse::<u32>().ok()?,
        first: first.parse::<u32>().ok()?,
        last: last.parse::<u32>().ok()?,
        times: times.parse::<u32>().ok()?,
    })
}

/// What the words ask for; `None` where they have no reading.
fn read_words(words: &[String]) -> Option<Asked<'_>> {
    match words {
        [word, file, times] if word.as_str() == "decode" => Some(Asked::Decode {
            file: file.as_str(),
            times: times.parse::<u32>().ok()?,
        }),
        [word, sections, gaps] if word.as_str() == "place" => Some(Asked::Place {
            sections: sections.parse::<u32>().ok()?,
            gaps: gaps.parse::<u32>().ok()?,
        }),
        [word, sizes @ ..] if word.as_str() == "stands" => Some(Asked::Stands(read_trial(sizes)?)),
        [word, sizes @ ..] if word.as_str() == "search" => Some(Asked::Search(read_trial(sizes)?)),
        [word, object, image, section, address] if word.as_str() == "match" => Some(Asked::Match {
            object: object.as_str(),
            image: image.as_str(),
            section: section.as_str(),
            address: address.parse::<u32>().ok()?,
        }),
        [word, image, script, pre, post] if word.as_str() == "again" => Some(Asked::Again {
            image: image.as_str(),
            script: script.as_str(),
            pre: pre.as_str(),
            post: post.as_str(),
        }),
        _ => None,
    }
}

/// The tally of a file of less than 4 GiB.
fn tally_of(rt: &HostRuntime, file: &str, times: u32) -> io::Result<Tally> {
    let bytes = fs::read(rt, file)?;
    if bytes.len() > u32::MAX as usize {
        return Err(io::Error::from(ErrorKind::InvalidInput));
    }
    Ok(count_times(bytes.as_slice(), times))
}

fn print_tally(rt: &HostRuntime, tally: Tally) -> io::Result<()> {
    println!(rt;
        "{} instructions, {} bytes not decoded",
        tally.instructions, tally.undecoded
    )
}

/// Prints an address or a sum of some; there is none where what was asked for has no room in 32 bits.
fn print_place(rt: &HostRuntime, place: Option<u64>) -> io::Result<()> {
    match place {
        Some(number) => println!(rt; "{}", number),
        None => println!(rt; "no room"),
    }
}

/// Compares a section of an object file with what an image file has at an address, and prints what comes of it.
fn print_match(
    rt: &HostRuntime,
    object: &str,
    image: &str,
    section: &str,
    address: u32,
) -> io::Result<()> {
    let object = fs::read(rt, object)?;
    let image = fs::read(rt, image)?;
    let line = line_of(
        rt.alloc(),
        object.as_slice(),
        image.as_slice(),
        section,
        address,
    )?;
    print!(rt; "{}", std::str::from_utf8(line.bytes()).unwrap_or(""))
}

/// Makes an update of the program of an image file after the lines of a script file, and prints what comes of it.
fn print_again(
    rt: &HostRuntime,
    image: &str,
    script: &str,
    pre: &str,
    post: &str,
) -> io::Result<()> {
    let image = fs::read(rt, image)?;
    let script = fs::read(rt, script)?;
    let objects = [fs::read(rt, pre)?, fs::read(rt, post)?];
    let line = line_of_update(
        rt.alloc(),
        image.as_slice(),
        script.as_slice(),
        objects[0].as_slice(),
        objects[1].as_slice(),
    )?;
    print!(rt; "{}", std::str::from_utf8(line.bytes()).unwrap_or(""))
}

/// Carries out what is asked for, and prints what comes of it.
fn carry_out(rt: &HostRuntime, asked: Asked<'_>) -> io::Result<()> {
    match asked {
        Asked::Decode { file, times } => print_tally(rt, tally_of(rt, file, times)?),
        Asked::Place { sections, gaps } => {
            print_place(rt, sum_of_places(rt.alloc(), sections, gaps)?)
        }
        Asked::Stands(trial) => print_place(rt, place_on_stack(rt.alloc(), trial)?),
        Asked::Search(trial) => print_place(rt, place_by_halving(rt.alloc(), trial)?),
        Asked::Match {
            object,
            image,
            section,
            address,
        } => print_match(rt, object, image, section, address),
        Asked::Again {
            image,
            script,
            pre,
            post,
        } => print_again(rt, image, script, pre, post),
    }
}

fn main(rt: HostRuntime) -> io::Result<ExitCode> {
    let mut words = Vec::new(rt.alloc());
    for word in env::args(&rt)?.skip(1) {
        words.push(word)?;
    }
    let Some(asked) = read_words(words.as_slice()) else {
        println!(rt;
            "usage: bench_parts decode FILE TIMES | place SECTIONS GAPS | stands DWORDS RANGES FIRST LAST TIMES | search DWORDS RANGES FIRST LAST TIMES | match OBJECT IMAGE SECTION ADDRESS | again IMAGE SCRIPT PRE POST"
        )?;
        return Ok(ExitCode::from(2));
    };
    carry_out(&rt, asked)?;
    Ok(ExitCode::SUCCESS)
}
