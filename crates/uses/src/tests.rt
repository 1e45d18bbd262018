//! Each use comes to what its comments say.

use crate::chips::{one_instruction, pixmap, six_rows, timer_after_its_interval};
use crate::desks::open;
use crate::engines::check_movie;
use crate::films::first_second;
use crate::greens::{shot_and_job, steps};
use crate::journals::{journal_of, made_of};
use crate::machines::{copy_is_same, first_instructions, lit_in_first_frame, pins_of_fire_and_up};
use crate::movies::{text_is_read_back, two_hundred_frames};
use crate::searches::shortest_to;
use crate::sessions::edit_alone;
use crate::talks::answers;
use crate::texts::{commands, digits_of_30, edit_line, numbers, reply, request, word_and_rest};
use crate::verifies::are_same;
use crate::words::frame_of_shot;
use anyhow::Result;
use std::marker::Brand;
use tas_desk::Unopened;
use tas_language::{Command, EditLine, Request};
use tas_movie::print_text;
use tas_search::Found;
use vcs_inputs::Cart;

/// A program that keeps the pins of the sticks at 80, for ever.
static PROGRAM: [u8; 8] = [
    0xad, 0x80, 0x02, // LDA SWCHA
    0x85, 0x80, // STA $80
    0x4c, 0x00, 0xf0, // JMP $F000
];

fn image() -> [u8; 2048] {
    let mut image = [0u8; 2048];
    for (place, byte) in PROGRAM.iter().enumerate() {
        image[place] = *byte;
    }
    image[0x7fd] = 0xf0;
    image
}

#[test]
fn chips_alone(rt: HostRuntime) -> Result<()> {
    assert_eq!(rt; timer_after_its_interval(), (255, 128));
    let picture = six_rows(rt.alloc())?;
    assert_eq!(rt; picture.pixel(0, 0), 0x1e);
    assert_eq!(rt; picture.lit(), 960);
    assert!(rt; pixmap(rt.alloc(), &picture).is_ok_and(|file| file.len() == 100_815));
    let (regs, cycles) = one_instruction();
    assert_eq!(rt; (regs.a, regs.pc), (0x42, 2));
    assert!(rt; cycles == Ok(2));
    Ok(())
}

#[test]
fn a_machine(rt: HostRuntime) -> Result<()> {
    let image = image();
    assert!(rt; copy_is_same(rt.alloc(), &image)?);
    let pins = pins_of_fire_and_up();
    assert_eq!(rt; (pins.a, pins.b), (0xfe, 0x3f));
    assert!(rt; lit_in_first_frame(rt.alloc(), &image)? == Ok(0));
    assert_eq!(rt; first_instructions(rt.alloc(), &image)?.len(), 75);
    Ok(())
}

#[test]
fn a_movie(rt: HostRuntime) -> Result<()> {
    let cart = Cart::from_bytes(rt.alloc(), &image())?;
    let movie = two_hundred_frames(rt.alloc(), &cart)?;
    assert!(rt; text_is_read_back(rt.alloc(), &movie)?);
    Ok(())
}

#[test]
fn a_journal(rt: HostRuntime) -> Result<()> {
    let cart = Cart::from_bytes(rt.alloc(), &image())?;
    let movie = two_hundred_frames(rt.alloc(), &cart)?;
    let mut journal = journal_of(rt.alloc(), &movie)?;
    let made = made_of(rt.alloc(), journal.as_slice(), &movie)?;
    assert_eq!(rt; made, (190, 1, false));
    journal.extend_from_slice(b"1 3 delete 0")?;
    let made = made_of(rt.alloc(), journal.as_slice(), &movie)?;
    assert_eq!(rt; made, (190, 1, true));
    Ok(())
}

#[test]
fn kept_states(rt: HostRuntime) -> Result<()> {
    let cart = Cart::from_bytes(rt.alloc(), &image())?;
    let movie = two_hundred_frames(rt.alloc(), &cart)?;
    assert!(rt; movie.len() > 150);
    assert_eq!(rt; shot_and_job(rt.alloc(), &movie)?, (64, 1));
    assert_eq!(rt; steps(rt.alloc(), movie)?, [101, 1, 1]);
    Ok(())
}

#[test]
fn texts(rt: HostRuntime) -> Result<()> {
    assert_eq!(rt; digits_of_30(), *b"1E");
    assert_eq!(rt; numbers(), [Some(120), None]);
    assert_eq!(rt; word_and_rest(), Some((4, 2)));
    assert!(rt; commands() == [Some(Command::Shot { frame: 60 }), None]);
    assert!(rt; matches!(request(), Some(Request::Picture { frame: 60 })));
    assert!(rt;
        edit_line()
            == Some(EditLine::CopyOther {
                from: 0,
                count: 60,
                at: 30
            })
    );
    assert_eq!(rt;
        reply(rt.alloc())?.as_slice(),
        b"edit 1 len 200\n".as_slice()
    );
    Ok(())
}

#[test]
fn an_engine(rt: HostRuntime) -> Result<()> {
    let image = image();
    let cart = Cart::from_bytes(rt.alloc(), &image)?;
    let movie = two_hundred_frames(rt.alloc(), &cart)?;
    let text = print_text(rt.alloc(), &movie)?;
    let answer = check_movie(rt.alloc(), &image, text.as_slice())?;
    assert_eq!(rt; answer.as_slice(), b"ok 200 frames\n".as_slice());
    Ok(())
}

#[test]
fn a_search(rt: HostRuntime) -> Result<()> {
    let cart = Cart::from_bytes(rt.alloc(), &image())?;
    let movie = two_hundred_frames(rt.alloc(), &cart)?;
    let found = shortest_to(&rt, rt.alloc(), &movie, 0, 0x7f)?;
    let Found::Best(choices) = found else {
        panic!(rt; "none was found")
    };
    assert_eq!(rt; choices.as_slice(), [1].as_slice());
    Ok(())
}

#[test]
fn movies_of_a_manifest(rt: HostRuntime) -> Result<()> {
    let mut lines = Vec::new(rt.alloc());
    assert!(rt;
        !are_same(
            &rt,
            rt.alloc(),
            &rt,
            b"no.movie no.bin no.digest # none is there\n",
            &mut lines
        )?
    );
    let wanted = b"no.movie: movie not found\n0 of 1 ok\n";
    assert_eq!(rt; lines.as_slice(), wanted.as_slice());
    Ok(())
}

#[test]
fn a_desk(rt: HostRuntime) -> Result<()> {
    let unopened = Unopened::new(rt.alloc(), 2)?;
    let (seen, said, closed) = open::<Brand, HostRuntime>(&rt, rt.alloc(), unopened)?;
    assert_eq!(rt; seen, (1, 200));
    assert_eq!(rt; said.as_slice(), b"len 1 200\n".as_slice());
    assert_eq!(rt; (closed.journal.len(), closed.movie.len()), (1, 200));
    Ok(())
}

#[test]
fn sessions(rt: HostRuntime) -> Result<()> {
    assert_eq!(rt; edit_alone(&rt, rt.alloc())?, (2, 1));
    Ok(())
}

#[test]
fn a_script(rt: HostRuntime) -> Result<()> {
    let found = answers(&rt, rt.alloc())?;
    let wanted = b"edit 1 len 0\nedit 2 len 200\nshot 2 191 ran 192 lit 1680\n";
    assert_eq!(rt; found.as_slice(), wanted.as_slice());
    Ok(())
}

#[test]
fn a_film(rt: HostRuntime) -> Result<()> {
    let cart = Cart::from_bytes(rt.alloc(), &image())?;
    let movie = two_hundred_frames(rt.alloc(), &cart)?;
    assert!(rt; movie.len() >= 60);
    assert!(rt; first_second(rt.alloc(), &movie).is_ok_and(|film| film.len() == 60 * 100_815));
    Ok(())
}

#[test]
fn words_of_a_shot(rt: HostRuntime) -> Result<()> {
    let mut words = Vec::new(rt.alloc());
    for word in ["tas", "shot", "game.bin", "60"] {
        words.push(String::from_str(rt.alloc(), word)?)?;
    }
    assert_eq!(rt; frame_of_shot(rt.alloc(), words.as_slice()), Some(60));
    Ok(())
}
