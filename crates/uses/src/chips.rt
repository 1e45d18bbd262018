//! The three chips, each alone.

use anyhow::Result;
use std::alloc::Global;
use vcs_cpu::{Bus, Halt, Regs, step};
use vcs_riot::{Pins, Riot};
use vcs_tia::{Picture, Tia, ppm};

/// INTIM and INSTAT once a timer of one interval has gone below 0.
pub fn timer_after_its_interval() -> (u8, u8) {
    let pins = Pins { a: 0xff, b: 0x3f }; // nothing pressed
    let mut riot = Riot::new();
    riot.write(0x296, 1); // TIM64T: one interval of 64 cycles
    riot.tick(65);
    let intim = riot.read(0x284, &pins); // 255
    let instat = riot.read(0x285, &pins); // 128
    (intim, instat)
}

/// A picture whose first six rows have one colour.
pub fn six_rows(alloc: Global) -> Result<Picture> {
    let mut picture = Picture::blank(alloc)?;
    let mut tia = Tia::new();
    tia.start_frame(false, false); // no fire button is pressed
    tia.write(0x09, 0x1e); // COLUBK
    tia.advance(40 * 228, &mut picture); // 40 lines of 228 colour clocks; row 0 is line 34
    Ok(picture)
}

/// A picture as a file in the format PPM; if that can't be written whole, how many of its bytes are.
pub fn pixmap(alloc: Global, picture: &Picture) -> std::result::Result<Vec<u8>, usize> {
    let mut file = Vec::new(alloc);
    match ppm(picture, &mut file) {
        Ok(()) => Ok(file), // 100,815 bytes
        Err(fault) => Err(fault.written),
    }
}

/// 256 bytes of RAM, seen at each page.
#[derive(Drop)]
pub struct Page {
    bytes: [u8; 256],
}

impl Bus for Page {
    ghost use Rattle.std.specs.Prelude.{◌%◌, List, ℕ};
    ghost use Rattle.std.specs.List.{slice_index, slice_set};
    ghost use Rattle.vcs_cpu.specs.Device.{Device};

    ghost Content = { List ℕ };

    ghost content = { λ page. page.bytes };

    ghost device = { record {
      byte_at = λ bytes address. slice_index bytes (address % 256);
      after_load = λ bytes address. bytes;
      after_poke = λ bytes address value. slice_set bytes (address % 256) value;
      after_advance = λ bytes cycles. bytes;
    } };

    ghost Fixed = { Unit {0} };

    ghost fixed = { λ page. tt };

    ghost can_advance = { λ bytes cycles. Unit {0} };

    fn peek(&self, address: u16) -> u8 {
        self.bytes[(address % 256) as usize]
    }

    fn load(&mut self, address: u16) -> u8 {
        self.peek(address)
    }

    fn poke(&mut self, address: u16, value: u8) {
        self.bytes[(address % 256) as usize] = value;
    }

    fn advance(&mut self, _cycles: u8) {}
}

/// The registers after one instruction, LDA #42, and its cycles.
pub fn one_instruction() -> (Regs, std::result::Result<u8, Halt>) {
    let mut page = Page { bytes: [0; 256] };
    page.poke(0, 0xa9);
    page.poke(1, 0x42);
    let mut regs = Regs {
        a: 0,
        x: 0,
        y: 0,
        s: 0xfd,
        pc: 0,
        n: false,
        v: false,
        d: false,
        i: true,
        z: false,
        c: false,
    };
    let cycles = step(&mut regs, &mut page); // Ok(2): regs.a is 0x42, regs.pc is 2
    (regs, cycles)
}
