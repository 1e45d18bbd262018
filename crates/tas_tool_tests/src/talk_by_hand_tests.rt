//! Conversations and their answers by hand: the lines of scripts, drafts, the lines `press`, `release`, `repeat`, `copy` and `lag`, digests,
//! and histories. Frames and lag frames were found by hand, digests by Python's hashlib.

use crate::talk_look_tests::COUNTING;
use crate::talks::{START, STARTED, Turn, check_talks};

/// The playfield's cartridge and ten frames.
const TEN: &[u8] = b"load 000=A910850DA91E85084C08F0 FFC=00F0\ninsert 0 10 ..... ..... .....\n";

/// The sticks are read in each fourth frame: INC 80, LDA 80, AND #3, BNE F00B, LDA 280, LDA #2, STA VSYNC, LDA #0, STA VSYNC, JMP F000.
const FOURTH: &[u8] = b"load 000=E680A5802903D003AD8002A9028500A90085004C00F0 FFC=00F0\n";

/// Conversations, and their names.
static TALKS: [(&str, &[Turn<'static>]); 17] = [
    // Each line of a script, and each refusal that fits in a few lines.
    (
        "lines of a script",
        &[(
            b"len\ninput 0\nshot 0\ninsert 0 2 R.... ..... .....\ninput 1\ndelete 1 2\nreplace 1 1 ..... ..... .....\ninsert 2 262143 ..... ..... .....\nload 000=A203A9028500A9008500CAD0F502 FFC=00F0\ninsert 0 3 ..... ..... .....\nwork 3\nshot 2\nshot 4\nquit\nlen\n",
            b"len 0 0\nno frame 0 len 0\nno frame 0 len 0\nedit 1 len 2\ninput 1 R.... ..... .....\nplace 1 len 2\nedit 2 len 2\nlong 2 len 2\nedit 3 len 2\nedit 4 len 5\nwork jobs 1 kept 0 stale 0\nshot 4 2 ran 3 lit 0\nhalted 4 F00D 02\n",
        )],
    ),
    // The refusals of `picture` are those of `shot`.
    (
        "a halted picture",
        &[(
            b"load 000=A203A9028500A9008500CAD0F502 FFC=00F0\ninsert 0 9 ..... ..... .....\npicture 5\n",
            b"edit 1 len 0\nedit 2 len 9\nhalted 2 F00D 02\n",
        )],
    ),
    // The blank cartridge halts in its first frame: it goes on at the address 0000, which tells the collisions of missile 0. Without one it
    // reads 00, which is `BRK`, whose pushes go down through RAM into the picture's registers. In the 68th missile 0 meets player 1, and so the next
    // opcode is 80.
    (
        "the blank cartridge",
        &[(
            b"insert 0 1 ..... ..... .....\nshot 0\n",
            b"edit 1 len 1\nhalted 1 0000 80\n",
        )],
    ),
    // The greenzone after shots, an edit, and the edit that takes it back: states after the edited place are gone where they are listed.
    (
        "states",
        &[
            (b"states\n", b"states 0 0\n"),
            (START, STARTED),
            (
                b"states\nshot 191\nstates\nreplace 64 1 R.... ..... .....\nstates\nshot 130\nstates\nreplace 64 1 ..... ..... .....\nstates\nwork 200\nstates\ndelete 0 200\nstates\n",
                b"states 2 0\nshot 2 191 ran 192 lit 1680\nstates 2 3 64 128 192\nedit 3 len 200\nstates 3 1 64\nshot 3 130 ran 67 lit 1680\nstates 3 2 64 128\nedit 4 len 200\nstates 4 1 64\nwork jobs 1 kept 3 stale 0\nstates 4 3 64 128 192\nedit 5 len 0\nstates 5 0\n",
            ),
        ],
    ),
    // Outside a draft there is nothing to commit or to drop; in one, nothing is begun and no cartridge is loaded.
    (
        "lines that have no place are refused",
        &[
            (
                b"commit\ndrop\nbegin\nbegin\nload 000=00\nload2 7FC=00F0\ndrop\ndrop\ncommit\nload2 7FC=00F0\n",
                b"no draft\nno draft\nbegin 0 0\nin draft\nin draft\nin draft\ndropped\nno draft\nno draft\nedit 1 len 0\n",
            ),
            (
                b"begin\ninsert 1 1 ..... ..... .....\nrepeat 0 0 1\ninput 0\nwhat\ndrop\nlen\n",
                b"begin 1 0\nplace 1 len 0\nedit 2 len 0\nno frame 2 len 0\nunknown word\ndropped\nlen 1 0\n",
            ),
            (
                b"begin 0\nBegin\ncommit \ndrop 1\n begin\ndrops\n",
                b"unknown rest\nunknown word\nunknown rest\nunknown rest\nunknown word\nunknown word\n",
            ),
        ],
    ),
    // Whatever the changes were, a commit is one replacement, a deletion and an insertion, one of them, or nothing; until then the
    // history has none of them.
    (
        "drafts are committed in at most two edits",
        &[
            (TEN, b"edit 1 len 0\nedit 2 len 10\n"),
            (
                b"begin\npress 3 1 R.... ..... .....\npress 5 1 .L... ..... .....\ninput 5\nhistory 2\ncommit\nhistory 2\n",
                b"begin 2 10\nedit 3 len 10\nedit 4 len 10\ninput 4 .L... ..... .....\nhistory 2 2 0 0\ncommit 3 10\nhistory 3 2 1 102\n2 0 replace 3 1 R.... ..... .....\n2 0 replace 4 1 ..... ..... .....\n2 0 replace 5 1 .L... ..... .....\n",
            ),
            (
                b"begin\ndelete 3 3\ninsert 3 1 ....F ..... .....\nlen\nhistory 3\ncommit\nhistory 3\n",
                b"begin 3 10\nedit 4 len 7\nedit 5 len 8\nlen 5 8\nhistory 3 3 0 0\ncommit 5 8\nhistory 5 3 2 48\n3 0 delete 3 3\n4 0 insert 3 1 ....F ..... .....\n",
            ),
            (
                b"begin\npress 0 8 ....F ..... .....\nrelease 0 3 ....F ..... .....\nrelease 4 4 ....F ..... .....\ncommit\nbegin\ncommit\nhistory 5\n",
                b"begin 5 8\nedit 6 len 8\nedit 7 len 8\nedit 8 len 8\ncommit 5 8\nbegin 5 8\ncommit 5 8\nhistory 5 5 0 0\n",
            ),
            (
                b"begin\nrepeat 2 1 1\ncopy 0 1 2\ncommit\nhistory 5\nbegin\ndelete 8 2\ncommit\nhistory 6\nlen\n",
                b"begin 5 8\nedit 6 len 9\nedit 7 len 10\ncommit 6 10\nhistory 6 5 1 33\n5 0 insert 3 2 ..... ..... .....\nbegin 6 10\nedit 7 len 8\ncommit 7 8\nhistory 7 6 1 15\n6 0 delete 8 2\nlen 7 8\n",
            ),
        ],
    ),
    // A draft begins with the states that are kept, and cuts its own at each change; those of the movie are cut once it is committed.
    (
        "drafts keep states of their own",
        &[
            (START, STARTED),
            (
                b"shot 191\nbegin\nstates\nreplace 64 1 R.... ..... .....\nstates\nshot 130\nstates\nwork 200\nstates\ndrop\nstates\n",
                b"shot 2 191 ran 192 lit 1680\nbegin 2 200\nstates 2 3 64 128 192\nedit 3 len 200\nstates 3 1 64\nshot 3 130 ran 67 lit 1680\nstates 3 2 64 128\nwork jobs 1 kept 1 stale 0\nstates 3 3 64 128 192\ndropped\nstates 2 3 64 128 192\n",
            ),
            (
                b"begin\nshare\ninsert 128 1 R.... ..... .....\nstates\nshare\nshot 200\ncommit\nstates\n",
                b"begin 2 200\nshare 2 0\nedit 3 len 201\nstates 3 2 64 128\nshare 2 0\nshot 3 200 ran 73 lit 1680\ncommit 3 201\nstates 3 2 64 128\n",
            ),
        ],
    ),
    // A draft that is open at the end is given up without a word.
    (
        "a draft that is given up",
        &[(b"begin\nquit\ncommit\n", b"begin 0 0\n")],
    ),
    (
        "a draft without a newline",
        &[(b"begin\ncommit", b"begin 0 0\nunknown end\n")],
    ),
    (
        "a draft at the end",
        &[(
            b"begin\ninsert 0 1 ..... ..... .....\n",
            b"begin 0 0\nedit 1 len 1\n",
        )],
    ),
    // Other switches stay as they are, whatever the stick does; a press of what is pressed, and a release of what isn't, change nothing.
    (
        "switches are pressed and released",
        &[
            (
                b"insert 0 4 R.... ..... .....\npress 1 2 R...F .L... r..A.\ninput 0\ninput 1\ninput 2\ninput 3\n",
                b"edit 1 len 4\nedit 2 len 4\ninput 2 R.... ..... .....\ninput 2 R...F .L... r..A.\ninput 2 R...F .L... r..A.\ninput 2 R.... ..... .....\n",
            ),
            (
                b"release 2 2 R...F ...U. r....\ninput 1\ninput 2\ninput 3\n",
                b"edit 3 len 4\ninput 3 R...F .L... r..A.\ninput 3 ..... .L... ...A.\ninput 3 ..... ..... .....\n",
            ),
            (
                b"press 0 4 ..... ..... .....\nrelease 0 4 ..... ..... .....\ninput 1\n",
                b"edit 4 len 4\nedit 5 len 4\ninput 5 R...F .L... r..A.\n",
            ),
            (
                b"press 0 1 RLDUF RLDUF rsbAB\ninput 0\nrelease 0 1 RLDUF RLDUF rsbAB\ninput 0\n",
                b"edit 6 len 4\ninput 6 RLDUF RLDUF rsbAB\nedit 7 len 4\ninput 7 ..... ..... .....\n",
            ),
        ],
    ),
    // R, L, D: then L D three times more, and copies from the front and the back; what is copied is what was there before.
    (
        "frames are repeated and copied",
        &[
            (
                b"insert 0 1 R.... ..... .....\ninsert 1 1 .L... ..... .....\ninsert 2 1 ..D.. ..... .....\nrepeat 1 2 3\n",
                b"edit 1 len 1\nedit 2 len 2\nedit 3 len 3\nedit 4 len 9\n",
            ),
            (
                b"input 0\ninput 2\ninput 3\ninput 4\ninput 7\ninput 8\n",
                b"input 4 R.... ..... .....\ninput 4 ..D.. ..... .....\ninput 4 .L... ..... .....\ninput 4 ..D.. ..... .....\ninput 4 .L... ..... .....\ninput 4 ..D.. ..... .....\n",
            ),
            (
                b"copy 0 2 9\ninput 8\ninput 9\ninput 10\n",
                b"edit 5 len 11\ninput 5 ..D.. ..... .....\ninput 5 R.... ..... .....\ninput 5 .L... ..... .....\n",
            ),
            (
                b"copy 0 3 1\ninput 0\ninput 1\ninput 2\ninput 3\ninput 4\ninput 13\n",
                b"edit 6 len 14\ninput 6 R.... ..... .....\ninput 6 R.... ..... .....\ninput 6 .L... ..... .....\ninput 6 ..D.. ..... .....\ninput 6 .L... ..... .....\ninput 6 .L... ..... .....\n",
            ),
            (
                b"copy 13 1 0\ninput 0\ninput 1\n",
                b"edit 7 len 15\ninput 7 .L... ..... .....\ninput 7 R.... ..... .....\n",
            ),
        ],
    ),
    // A minute of autofire.
    (
        "a minute of autofire is one line",
        &[
            (
                b"insert 0 40 ..... ..... .....\npress 30 1 ....F ..... .....\nrepeat 30 2 1799\n",
                b"edit 1 len 40\nedit 2 len 40\nedit 3 len 3638\n",
            ),
            (
                b"input 29\ninput 30\ninput 31\ninput 32\ninput 3628\ninput 3629\ninput 3630\ninput 3637\ninput 3638\n",
                b"input 3 ..... ..... .....\ninput 3 ....F ..... .....\ninput 3 ..... ..... .....\ninput 3 ....F ..... .....\ninput 3 ....F ..... .....\ninput 3 ..... ..... .....\ninput 3 ..... ..... .....\ninput 3 ..... ..... .....\nno frame 3 len 3638\n",
            ),
        ],
    ),
    // The place is refused before the length; what is refused changes nothing, and an edit of no frames counts.
    (
        "retouches are refused",
        &[
            (
                b"insert 0 9 ..... ..... .....\npress 8 2 ....F ..... .....\nrelease 9 1 ....F ..... .....\npress 10 0 ....F ..... .....\npress 9 0 ....F ..... .....\n",
                b"edit 1 len 9\nplace 1 len 9\nplace 1 len 9\nplace 1 len 9\nedit 2 len 9\n",
            ),
            (
                b"repeat 7 3 1\nrepeat 9 1 9999999\nrepeat 8 1 9999999\nrepeat 10 0 1\nrepeat 9 0 5\nrepeat 3 2 0\n",
                b"place 2 len 9\nplace 2 len 9\nlong 2 len 9\nplace 2 len 9\nedit 3 len 9\nedit 4 len 9\n",
            ),
            (
                b"copy 8 2 0\ncopy 10 0 0\ncopy 0 1 10\ncopy 9 0 9\nlen\n",
                b"place 4 len 9\nplace 4 len 9\nplace 4 len 9\nedit 5 len 9\nlen 5 9\n",
            ),
            (
                b"repeat 0 9 29127\nrepeat 0 9 29126\ncopy 0 9 0\ncopy 0 2 0\ncopy 0 1 0\nrepeat 0 1 1\nrepeat 0 262144 0\n",
                b"long 5 len 9\nedit 6 len 262143\nlong 6 len 262143\nlong 6 len 262143\nedit 7 len 262144\nlong 7 len 262144\nedit 8 len 262144\n",
            ),
        ],
    ),
    // 200 frames whose states are kept: a press that a release undoes costs none of them, and one that stays those after it.
    (
        "states are kept as over other edits",
        &[
            (
                b"load 000=A9AB85FFE680A9028500A90085004C00F0 FFC=00F0\ninsert 0 200 ..... ..... .....\nshot 199\nstates\n",
                b"edit 1 len 0\nedit 2 len 200\nshot 2 199 ran 200 lit 0\nstates 2 3 64 128 192\n",
            ),
            (
                b"press 100 1 ....F ..... .....\nrelease 100 1 ....F ..... .....\nstates\n",
                b"edit 3 len 200\nedit 4 len 200\nstates 4 3 64 128 192\n",
            ),
            (
                b"press 100 1 ....F ..... .....\nstates\nshot 199\ncopy 100 1 130\nstates\n",
                b"edit 5 len 200\nstates 5 1 64\nshot 5 199 ran 136 lit 0\nedit 6 len 201\nstates 6 2 64 128\n",
            ),
        ],
    ),
    // Stretches are cut where the frames that are asked for begin and end. The states on the way to the first frame are kept, those
    // after it aren't.
    (
        "lag frames are told",
        &[
            (FOURTH, b"edit 1 len 0\n"),
            (
                b"lag 0 0\nlag 0 1\ninsert 0 9 ..... ..... .....\nlag 0 9\nlag 1 6\nlag 3 4\nlag 2 3\nlag 5 5\nlag 9 9\nlag 8 9\n",
                b"lag 1 0 0 0\nno frame 1 len 0\nedit 2 len 9\nlag 2 0 9 12\n0 3\n4 7\n8 9\nlag 2 1 6 8\n1 3\n4 6\nlag 2 3 4 0\nlag 2 2 3 4\n2 3\nlag 2 5 5 0\nlag 2 9 9 0\nlag 2 8 9 4\n8 9\n",
            ),
            (
                b"lag 0 10\nlag 10 10\nlag 5 4\nlag 9 8\nlag 9999999 9999999\n",
                b"no frame 2 len 9\nno frame 2 len 9\nno frame 2 len 9\nno frame 2 len 9\nno frame 2 len 9\n",
            ),
            (
                b"insert 9 191 ..... ..... .....\nstates\nlag 130 140\nstates\n",
                b"edit 3 len 200\nstates 3 0\nlag 3 130 140 24\n130 131\n132 135\n136 139\nstates 3 2 64 128\n",
            ),
            (
                b"lag 0 3\nlag 196 200\nstates\n",
                b"lag 3 0 3 4\n0 3\nlag 3 196 200 8\n196 199\nstates 3 3 64 128 192\n",
            ),
        ],
    ),
    // A halted machine reads nothing; the frame that halts read nothing before it.
    (
        "halted frames are lag frames",
        &[
            (
                b"load 000=A203A9028500A9008500CAD0F502 FFC=00F0\ninsert 0 9 ..... ..... .....\nlag 0 9\nlag 4 8\n",
                b"edit 1 len 0\nedit 2 len 9\nlag 2 0 9 4\n0 9\nlag 2 4 8 4\n4 8\n",
            ),
            (
                b"load 000=E680AD80023001024C00F0 FFC=00F0\nreplace 2 1 R.... ..... .....\nlag 0 9\nlag 2 4\nlag 0 3\n",
                b"edit 3 len 9\nedit 4 len 9\nlag 4 0 9 4\n3 9\nlag 4 2 4 4\n3 4\nlag 4 0 3 0\n",
            ),
        ],
    ),
];

/// More of them. One table of all is more than the prover reads at once.
static MORE_TALKS: [(&str, &[Turn<'static>]); 6] = [
    // Outside a draft and in one, `version` changes nothing.
    (
        "version",
        &[
            (
                b"version\nbegin\nversion\nlen\ndrop\n",
                b"version 0.3.0 profile 2 format 1 bytes picture lag inputs movie history\nbegin 0 0\nversion 0.3.0 profile 2 format 1 bytes picture lag inputs movie history\nlen 0 0\ndropped\n",
            ),
            (
                b"version 1\nVersion\nversion \n",
                b"unknown rest\nunknown word\nunknown rest\n",
            ),
        ],
    ),
    // The runs of the frames that are asked for, cut where these begin and end; an edit changes them, also in a draft.
    (
        "inputs",
        &[
            (TEN, b"edit 1 len 0\nedit 2 len 10\n"),
            (
                b"press 4 3 R.... ..... .....\ninputs 0 10\ninputs 5 8\ninputs 5 6\n",
                b"edit 3 len 10\ninputs 3 0 10 66\n0 4 ..... ..... .....\n4 3 R.... ..... .....\n7 3 ..... ..... .....\ninputs 3 5 8 44\n5 2 R.... ..... .....\n7 1 ..... ..... .....\ninputs 3 5 6 22\n5 1 R.... ..... .....\n",
            ),
            (
                b"begin\ndelete 0 4\ninputs 0 2\ninputs 5 7\ndrop\ninputs 0 2\n",
                b"begin 3 10\nedit 4 len 6\ninputs 4 0 2 22\n0 2 R.... ..... .....\nno frame 4 len 6\ndropped\ninputs 3 0 2 22\n0 2 ..... ..... .....\n",
            ),
            (
                b"inputs 0 11\ninputs 10 11\ninputs 9999998 9999999\n",
                b"no frame 3 len 10\nno frame 3 len 10\nno frame 3 len 10\n",
            ),
            (
                b"inputs\ninputs 0\ninputs 0 0\ninputs 2 1\ninputs 0 1025\ninputs 0 01\ninputs 0 1 2\nlen\n",
                b"unknown rest\nunknown rest\nunknown rest\nunknown rest\nunknown rest\nunknown rest\nunknown rest\nlen 3 10\n",
            ),
        ],
    ),
    // Lines that are nearly these.
    (
        "other lines are unknown",
        &[
            (
                b"press 0 1\npress 0 1 ..... .....\npress 0 01 ..... ..... .....\nrelease 0 1 ..... ..... .... \nPress 0 1 ..... ..... .....\n",
                b"unknown rest\nunknown rest\nunknown rest\nunknown rest\nunknown word\n",
            ),
            (
                b"repeat 0 1\nrepeat 0 1 10000000\nrepeat 0 1 2 3\ncopy 0 1\ncopy other 0 1 0\ncopies 0 1 0\n",
                b"unknown rest\nunknown rest\nunknown rest\nunknown rest\nunknown rest\nunknown word\n",
            ),
            (
                b"lag\nlag 0\nlag 0 \nlag 00 0\nlag 0 0 0\nlag 0 10000000\nlags 0 0\nlen\n",
                b"unknown rest\nunknown rest\nunknown rest\nunknown rest\nunknown rest\nunknown rest\nunknown word\nlen 0 0\n",
            ),
        ],
    ),
    // Digests of the counting program. What is kept is what a shot of the frame keeps: `digest 63` the state after 64 frames.
    (
        "counting",
        &[
            (COUNTING, STARTED),
            (
                b"digest 0\n",
                b"digest 2 0 ram ae1ced82a004520774321ef0f382a78838a5e785e4e85e06ca810b017a5303b4 picture 589dd6620bac6e3bae3f75930faca7ea0a59bbd5c610a3536e12d4ba0ff71123\n",
            ),
            (
                b"digest 63\n",
                b"digest 2 63 ram b8e4291c186e56862234d911a18c700af186aa8235799b3090b34c2aa1c5e881 picture 589dd6620bac6e3bae3f75930faca7ea0a59bbd5c610a3536e12d4ba0ff71123\n",
            ),
            (
                b"states\nshot 64\n",
                b"states 2 1 64\nshot 2 64 ran 1 lit 0\n",
            ),
            (
                b"digest 130\n",
                b"digest 2 130 ram fe9de25bdc383c411f37ab3755a7011208745768868c1d01b2953b800643c1fb picture 589dd6620bac6e3bae3f75930faca7ea0a59bbd5c610a3536e12d4ba0ff71123\n",
            ),
            (b"states\n", b"states 2 2 64 128\n"),
            (
                b"digest 199\n",
                b"digest 2 199 ram c65d9c418c8152c3cec388d210ae010d71c451cb3a40032bf57d124b88621c97 picture 589dd6620bac6e3bae3f75930faca7ea0a59bbd5c610a3536e12d4ba0ff71123\n",
            ),
            (b"digest 200\n", b"no frame 2 len 200\n"),
        ],
    ),
    // Digests of a program whose pictures depend on all inputs so far.
    (
        "folding",
        &[
            (
                b"load 000=AD80026580858085094C00F0 FFC=00F0\ninsert 0 5 ..... ..... .....\nreplace 1 1 R.... ..... .....\nreplace 4 1 R.... ..... .....\n",
                b"edit 1 len 0\nedit 2 len 5\nedit 3 len 5\nedit 4 len 5\n",
            ),
            (
                b"digest 0\n",
                b"digest 4 0 ram bf9f4aaa91426d16a004ef97b3a91fb5e2d2c0d6260647d520734abeb83be961 picture dc81d7ece5e97d788ca7f4491073f7db6c85b1ebdd91a4d53115ddcaa02fcaa5\n",
            ),
            (
                b"digest 4\n",
                b"digest 4 4 ram 8487a6fc1eb35c5f379ee7daf10c3cec71b0ac6aceab3b5876b81971841af31a picture 131dabc5f51fd621b70dadddd5e2e4d7f0fa3ebe2a2625b79de2fd3ecd464c01\n",
            ),
            (
                b"digest 1\n",
                b"digest 4 1 ram 39b7d126a1d8354c283f65278adbd1f315a5cf4e2459e6a534df035c48b986ad picture 2468b3a481f81e62e469b5ee76414bdd2bae1f40937a1eb010f2e5e2b14bc9ab\n",
            ),
        ],
    ),
    // A cartridge, frames, and edits of each other kind, one of which is refused; and the history from several numbers on. The frames that
    // `press` makes are three runs, which are one edit.
    (
        "a history",
        &[
            (b"history 0\n", b"history 0 0 0 0\n"),
            (
                b"load 000=A910850DA91E85084C08F0 FFC=00F0\n",
                b"edit 1 len 0\n",
            ),
            (b"insert 0 200 ..... ..... .....\n", b"edit 2 len 200\n"),
            (
                b"history 1\n",
                b"history 2 1 1 35\n1 0 insert 0 200 ..... ..... .....\n",
            ),
            (b"len\n", b"len 2 200\n"),
            (b"insert 201 1 ..... ..... .....\n", b"place 2 len 200\n"),
            (b"replace 3 2 R.... ..... .....\n", b"edit 3 len 200\n"),
            (b"press 2 4 .L... ..... .....\n", b"edit 4 len 200\n"),
            (b"delete 5 1\n", b"edit 5 len 199\n"),
            (b"share\n", b"share 5 0\n"),
            (
                b"history 2\n",
                b"history 5 2 3 151\n2 0 replace 3 2 R.... ..... .....\n3 0 replace 2 1 .L... ..... .....\n3 0 replace 3 2 RL... ..... .....\n3 0 replace 5 1 .L... ..... .....\n4 0 delete 5 1\n",
            ),
            (b"history 4\n", b"history 5 4 1 15\n4 0 delete 5 1\n"),
            (b"history 5\n", b"history 5 5 0 0\n"),
            (b"history 9999999\n", b"history 5 9999999 0 0\n"),
        ],
    ),
];

#[test]
fn conversations_are_answered_as_by_hand(rt: HostRuntime) {
    check_talks(&rt, rt.alloc(), TALKS.as_slice());
    check_talks(&rt, rt.alloc(), MORE_TALKS.as_slice());
}
