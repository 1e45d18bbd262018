//! Traces of longer programs that were worked out by hand.

use crate::carts::{START, Traced, check_traces};

// Programs that end at an undocumented byte. What the instructions do is in the comment; each line was worked out by hand.
static WORKED_PROGRAMS: [Traced; 9] = [
    // SEC, LDA #7F, ADC #0, which overflows; BVC, BVS over a byte, CLV, BVS, and BVC back to that byte
    (
        &[
            (
                0,
                b"\x38\xa9\x7f\x69\x00\x50\x10\x70\x01\x02\xb8\x70\xfc\x50\xfa",
            ),
            START,
        ],
        9,
        b"F000 38 00 00 00 FD 35 2\n\
        F001 A9 7F 00 00 FD 35 2\n\
        F003 69 80 00 00 FD F4 2\n\
        F005 50 80 00 00 FD F4 2\n\
        F007 70 80 00 00 FD F4 3\n\
        F00A B8 80 00 00 FD B4 2\n\
        F00B 70 80 00 00 FD B4 2\n\
        F00D 50 80 00 00 FD B4 3\n\
        F009 02 halt\n",
    ),
    // LDA #80, SBC #0, which overflows; BCC, BCS, BMI, BPL, of which two are taken; SBC #80, which overflows; BPL, BMI, BCS, and BCC
    // back to a byte that was passed over
    (
        &[
            (
                0,
                b"\xa9\x80\xe9\x00\x90\x20\xb0\x01\x02\x30\x20\x10\x01\x02\xe9\x80\x10\x20\x30\x01\x02\xb0\x20\x90\xfb",
            ),
            START,
        ],
        12,
        b"F000 A9 80 00 00 FD B4 2\n\
        F002 E9 7F 00 00 FD 75 2\n\
        F004 90 7F 00 00 FD 75 2\n\
        F006 B0 7F 00 00 FD 75 3\n\
        F009 30 7F 00 00 FD 75 2\n\
        F00B 10 7F 00 00 FD 75 3\n\
        F00E E9 FF 00 00 FD F4 2\n\
        F010 10 FF 00 00 FD F4 2\n\
        F012 30 FF 00 00 FD F4 3\n\
        F015 B0 FF 00 00 FD F4 2\n\
        F017 90 FF 00 00 FD F4 3\n\
        F014 02 halt\n",
    ),
    // LDA #50; ADC of 10, D0, 90, 90, AF and FE; SBC of 1 and FE
    (
        &[
            (
                0,
                b"\xa9\x50\x69\x10\x69\xd0\x69\x90\x69\x90\x69\xaf\x69\xfe\xe9\x01\xe9\xfe\x02",
            ),
            START,
        ],
        10,
        b"F000 A9 50 00 00 FD 34 2\n\
        F002 69 60 00 00 FD 34 2\n\
        F004 69 30 00 00 FD 35 2\n\
        F006 69 C1 00 00 FD B4 2\n\
        F008 69 51 00 00 FD 75 2\n\
        F00A 69 01 00 00 FD 35 2\n\
        F00C 69 00 00 00 FD 37 2\n\
        F00E E9 FF 00 00 FD B4 2\n\
        F010 E9 00 00 00 FD 37 2\n\
        F012 02 halt\n",
    ),
    // LDA #90, ORA #5, AND #0F, EOR #5; CMP of 0 and 1; LDX #80; CPX of 7F, 80 and 81; LDY #1; CPY of FF, 0 and 1
    (
        &[
            (
                0,
                b"\xa9\x90\x09\x05\x29\x0f\x49\x05\xc9\x00\xc9\x01\xa2\x80\xe0\x7f\xe0\x80\xe0\x81\xa0\x01\xc0\xff\xc0\x00\xc0\x01\x02",
            ),
            START,
        ],
        15,
        b"F000 A9 90 00 00 FD B4 2\n\
        F002 09 95 00 00 FD B4 2\n\
        F004 29 05 00 00 FD 34 2\n\
        F006 49 00 00 00 FD 36 2\n\
        F008 C9 00 00 00 FD 37 2\n\
        F00A C9 00 00 00 FD B4 2\n\
        F00C A2 00 80 00 FD B4 2\n\
        F00E E0 00 80 00 FD 35 2\n\
        F010 E0 00 80 00 FD 37 2\n\
        F012 E0 00 80 00 FD B4 2\n\
        F014 A0 00 80 01 FD 34 2\n\
        F016 C0 00 80 01 FD 34 2\n\
        F018 C0 00 80 01 FD 35 2\n\
        F01A C0 00 80 01 FD 37 2\n\
        F01C 02 halt\n",
    ),
    // LDA #81, STA 80; LSR, ROR, ASL and ROL of 80, and LDX 80 after each; ROR, ROL, LSR, ASL, ASL and ROR of A
    (
        &[
            (
                0,
                b"\xa9\x81\x85\x80\x46\x80\xa6\x80\x66\x80\xa6\x80\x06\x80\xa6\x80\x26\x80\xa6\x80\x6a\x2a\x4a\x0a\x0a\x6a\x02",
            ),
            START,
        ],
        17,
        b"F000 A9 81 00 00 FD B4 2\n\
        F002 85 81 00 00 FD B4 3\n\
        F004 46 81 00 00 FD 35 5\n\
        F006 A6 81 40 00 FD 35 3\n\
        F008 66 81 40 00 FD B4 5\n\
        F00A A6 81 A0 00 FD B4 3\n\
        F00C 06 81 A0 00 FD 35 5\n\
        F00E A6 81 40 00 FD 35 3\n\
        F010 26 81 40 00 FD B4 5\n\
        F012 A6 81 81 00 FD B4 3\n\
        F014 6A 40 81 00 FD 35 2\n\
        F015 2A 81 81 00 FD B4 2\n\
        F016 4A 40 81 00 FD 35 2\n\
        F017 0A 80 81 00 FD B4 2\n\
        F018 0A 00 81 00 FD 37 2\n\
        F019 6A 80 81 00 FD B4 2\n\
        F01A 02 halt\n",
    ),
    // TSX, TXA, LDY #0, TYA, TAX, DEX, DEY, INY, TXS, TXA, TAY, INX, TSX
    (
        &[
            (
                0,
                b"\xba\x8a\xa0\x00\x98\xaa\xca\x88\xc8\x9a\x8a\xa8\xe8\xba\x02",
            ),
            START,
        ],
        14,
        b"F000 BA 00 FD 00 FD B4 2\n\
        F001 8A FD FD 00 FD B4 2\n\
        F002 A0 FD FD 00 FD 36 2\n\
        F004 98 00 FD 00 FD 36 2\n\
        F005 AA 00 00 00 FD 36 2\n\
        F006 CA 00 FF 00 FD B4 2\n\
        F007 88 00 FF FF FD B4 2\n\
        F008 C8 00 FF 00 FD 36 2\n\
        F009 9A 00 FF 00 FF 36 2\n\
        F00A 8A FF FF 00 FF B4 2\n\
        F00B A8 FF FF FF FF B4 2\n\
        F00C E8 FF 00 FF FF 36 2\n\
        F00D BA FF FF FF FF B4 2\n\
        F00E 02 halt\n",
    ),
    // CLI, SEC, SEI, CLC, SED, PHP, CLD, PLA; LDA #CF, PHA, PLP, CLV, PHP, PLA; LDA #30, PHA, PLP
    (
        &[
            (
                0,
                b"\x58\x38\x78\x18\xf8\x08\xd8\x68\xa9\xcf\x48\x28\xb8\x08\x68\xa9\x30\x48\x28\x02",
            ),
            START,
        ],
        18,
        b"F000 58 00 00 00 FD 30 2\n\
        F001 38 00 00 00 FD 31 2\n\
        F002 78 00 00 00 FD 35 2\n\
        F003 18 00 00 00 FD 34 2\n\
        F004 F8 00 00 00 FD 3C 2\n\
        F005 08 00 00 00 FC 3C 3\n\
        F006 D8 00 00 00 FC 34 2\n\
        F007 68 3C 00 00 FD 34 4\n\
        F008 A9 CF 00 00 FD B4 2\n\
        F00A 48 CF 00 00 FC B4 3\n\
        F00B 28 CF 00 00 FD FF 4\n\
        F00C B8 CF 00 00 FD BF 2\n\
        F00D 08 CF 00 00 FC BF 3\n\
        F00E 68 BF 00 00 FD BD 4\n\
        F00F A9 30 00 00 FD 3D 2\n\
        F011 48 30 00 00 FC 3D 3\n\
        F012 28 30 00 00 FD 30 4\n\
        F013 02 halt\n",
    ),
    // LDA #40, STA 80, BIT 80, LDA #80, BIT 80, DEC 80, BIT 0080, STA 81, BIT 81
    (
        &[
            (
                0,
                b"\xa9\x40\x85\x80\x24\x80\xa9\x80\x24\x80\xc6\x80\x2c\x80\x00\x85\x81\x24\x81\x02",
            ),
            START,
        ],
        10,
        b"F000 A9 40 00 00 FD 34 2\n\
        F002 85 40 00 00 FD 34 3\n\
        F004 24 40 00 00 FD 74 3\n\
        F006 A9 80 00 00 FD F4 2\n\
        F008 24 80 00 00 FD 76 3\n\
        F00A C6 80 00 00 FD 74 5\n\
        F00C 2C 80 00 00 FD 36 4\n\
        F00F 85 80 00 00 FD 36 3\n\
        F011 24 80 00 00 FD B4 3\n\
        F013 02 halt\n",
    ),
    // LDY #7F, INY, STY 80; JSR to PLA, PHA and RTS; CPY 80, BNE, BEQ over a byte
    (
        &[
            (
                0,
                b"\xa0\x7f\xc8\x84\x80\x20\x10\xf0\xc4\x80\xd0\x04\xf0\x01\x02\x02\x68\x48\x60",
            ),
            START,
        ],
        11,
        b"F000 A0 00 00 7F FD 34 2\n\
        F002 C8 00 00 80 FD B4 2\n\
        F003 84 00 00 80 FD B4 3\n\
        F005 20 00 00 80 FB B4 6\n\
        F010 68 07 00 80 FC 34 4\n\
        F011 48 07 00 80 FB 34 3\n\
        F012 60 07 00 80 FD 34 6\n\
        F008 C4 07 00 80 FD 37 3\n\
        F00A D0 07 00 80 FD 37 2\n\
        F00C F0 07 00 80 FD 37 3\n\
        F00F 02 halt\n",
    ),
];

#[test]
fn lines_of_worked_programs(rt: HostRuntime) {
    check_traces(&rt, rt.alloc(), 4096, &WORKED_PROGRAMS);
}
