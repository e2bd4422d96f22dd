// Tries every byte at every place of lines of paper 01, and then every part of them from their first byte on. It writes for each line how many are taken, how many
// have not the written form, how many of these end too soon, how many are outside their limits, and a digest of all answers with their places.
#![tactic(auto)]

ghost use Rattle.std.specs.Prelude.{◌<◌};

use read::Fault;
use std::io;

// How many were answered in each way, and the digest of all answers.
#[derive(Clone, Copy, Default)]
struct Tally {
    taken: u64,
    form: u64,
    soon: u64,
    limit: u64,
    digest: u64,
}

// The place at fault; no sample is longer than 64 bytes.
fn small(place: usize) -> u64
    ensures { result < 100 }
{
    if place < 100 { place as u64 } else { 99 }
}

impl Tally {
    fn mix(&mut self, answer: u64) {
        self.digest = (self.digest % 1000003) * 257 + answer % 1000;
    }

    fn take(&mut self) {
        self.taken = self.taken.wrapping_add(1);
        self.mix(0);
    }

    // A line that has not the written form: one that is pointed to behind its last byte ends too soon.
    fn refuse(&mut self, line: &[u8], place: usize) {
        if place == line.len() {
            self.soon = self.soon.wrapping_add(1);
        } else {
            self.form = self.form.wrapping_add(1);
        }
        self.mix(600 + small(place));
    }

    fn limit(&mut self, place: usize) {
        self.limit = self.limit.wrapping_add(1);
        self.mix(700 + small(place));
    }

    fn judge(&mut self, line: &[u8]) {
        match read::read_line(line, 240) {
            Ok(_) => self.take(),
            Err(Fault::Form(place)) => self.refuse(line, place),
            Err(Fault::Limit(place)) => self.limit(place),
        }
    }
}

// The line with another byte at a place.
fn try_byte(line: &[u8], place: usize, b: u8, tally: &mut Tally) {
    let mut copy = [0u8; 64];
    ground::put(&mut copy, 0, line);
    ground::put_byte(&mut copy, place, b);
    tally.judge(parts::first(&copy, line.len()));
}

fn all_places(line: &[u8], tally: &mut Tally) {
    for place in 0..line.len() {
        for b in 0..=255u8 {
            try_byte(line, place, b, tally);
        }
    }
}

// Every part of the line from its first byte on.
fn all_starts(line: &[u8], tally: &mut Tally) {
    for k in 1..line.len() {
        tally.judge(parts::first(line, k));
    }
}

fn show(out: &impl Print, line: &[u8]) -> io::Result<()> {
    let mut t = Tally::default();
    all_places(line, &mut t);
    all_starts(line, &mut t);
    out.write_all(line)?;
    println!(out;
        " taken {} form {} soon {} limit {} digest {}",
        t.taken, t.form, t.soon, t.limit, t.digest
    )
}

fn main(rt: HostRuntime) -> io::Result<()> {
    show(&rt, b"Q240,24")?;
    show(&rt, b"q80")?;
    show(&rt, b"N")?;
    show(&rt, b"R100,50")?;
    show(&rt, b"ZT")?;
    show(&rt, b"ZB")?;
    show(&rt, b"LO10,10,100,200")?;
    show(&rt, b"LE0,0,1,1")?;
    show(&rt, b"LW5,6,7,8")?;
    show(&rt, b"X10,10,3,360,250")?;
    show(&rt, b"A0,0,0,1,1,N,V0L1V0M3.2V0R1")?;
    show(&rt, b"A0,0,0,1,1,R,\"a\"C0\"b\"")?;
    show(&rt, b"B0,0,0,E30,2,3,50,N,\"123456789012\"")?;
    show(&rt, b"B0,0,0,3,2,3,50,B,C0")?;
    show(&rt, b"B0,0,0,3,2,3,50,B,C,C0")?;
    show(&rt, b"B0,0,0,3,2,3,50,B,R,\"R,\"")?;
    show(&rt, b"GG0,0,\"Name\"")?;
    show(&rt, b"FS\"Test\"")?;
    show(&rt, b"FE")?;
    show(&rt, b"FR\"Test\"")?;
    show(&rt, b"FK\"*\"")?;
    show(&rt, b"FP\"Test\"")?;
    show(&rt, b"FI")?;
    show(&rt, b"GI")?;
    show(&rt, b"GK\"Name\"")?;
    show(&rt, b"GM\"Name\",300")?;
    show(&rt, b"V0,5,L,\"Name\"")?;
    show(&rt, b"C0,02,+1,\"NO\"")?;
    show(&rt, b"C0,2,-99999,\"\"")?;
    show(&rt, b"?V0,\"ABCDE\"")?;
    show(&rt, b"?C0,99")?;
    show(&rt, b"VC")?;
    show(&rt, b"P2")?;
    show(&rt, b"LS3,5,2,9,5")?;
    show(&rt, b"LSE10,10,8,100,200")?;
    show(&rt, b"LSW0,0,1,7,9")?;
    show(&rt, b"TS6,15,2,14,35,0")?;
    show(&rt, b"TDme-dd-y4")?;
    show(&rt, b"TTh:m:s")?;
    show(&rt, b"A0,0,0,1,1,N,\"Date: \"TD\" \"TT")
}
