//! The texts that explain the commands.
//!
//! A usage line is written out for each command, with what it reads from standard input: clap's own doesn't know of it,
//! and lists the sixteen names of a desk's pairs.

pub(crate) const LINES: &str = "A file that another program's lines are read from";

pub(crate) const ANSWERS: &str =
    "The file that their answers are written to; goes with the one before it";

pub(crate) const TRACE_HELP: &str = "\
Standard input is the cartridge: its image of 4096 or 2048 bytes, as an assembler writes it.
Standard output has one line for each instruction from power-on, with nothing pressed:
its address, its opcode, the registers A X Y S P after it, and its CPU cycles.
A byte that is no documented opcode ends the trace with a line such as 'F006 02 halt'.

Example:
  examples/cart counter | ./tas trace 3";

pub(crate) const CHECK_HELP: &str = "\
Standard input is the movie text: a line 'a26movie 2', a line 'cart ' with the SHA-256 of the
cartridge, and a line for each run of equal frames: 'R.... ..... .....' is one frame, and
'R.... ..... ..... x60' sixty. An older text, 'a26movie 1' with a line for each frame, is read too.
A frame is 'RLDUF RLDUF rsbAB': right, left, down, up and fire of the left stick; the same of the
right stick; reset, select, black and white, left difficulty A, right difficulty A. A dot in a
letter's place means that it isn't pressed or set: '..D.F ..... .....' pushes the left stick down
and fires.
Standard output is 'ok F frames', where the text is one of a movie of F frames with this cartridge.
Otherwise the first line at fault is reported. Only the text is read: no frame is played, so a movie
that halts is 'ok'. 'tas digest' plays it.

Example:
  examples/cart joystick > joystick.bin
  ./tas check joystick.bin < examples/joystick.movie";

pub(crate) const MIGRATE_HELP: &str = "\
Standard input is a movie text, as for 'tas check'.
Standard output is the same movie as a text of runs: 'a26movie 2', and a line for each run of equal
frames.

Example:
  ./tas migrate joystick.bin -o new.movie < examples/older.movie";

pub(crate) const NEW_HELP: &str = "\
Standard output is the text of a movie of this cartridge with FRAMES frames in which nothing is
pressed, 262144 at most, which is 72 minutes. 'tas edit' presses something in it.

Example:
  ./tas new joystick.bin 600 -o first.movie
  echo press 60 30 R...F ..... ..... > first.script
  ./tas edit joystick.bin first.script -o first.movie < first.movie";

pub(crate) const RECOVER_HELP: &str = "\
Standard input is a journal: a movie, and a line for each edit that was accepted after it. CART is
the cartridge that it began with.
Standard output is the text of the movie that the edits make. Standard error has the report, a line
'recovered: N edits'. A journal may end inside a line, as after a crash: that line isn't an edit,
and the report ends with '; a last line was cut'.
The first line at fault ends the command with its number and nothing written. --until recovers what
the lines before it make, as '--until 7' after 'fault: journal line 7: number'; the movie that the
journal begins with must be whole. With -o FILE the movie replaces FILE once it and the report are
written; FILE may not be the journal.
With --cart IMAGE the cartridge of that movie replaces IMAGE: that of the last line that loads one,
which may be in no other file, or CART's where no line does. It comes after the text of the movie
and before the report, so with -o before FILE. IMAGE may not be CART, the journal, standard output's
file or FILE: else the status is 2, and nothing is opened.

Examples:
  examples/cart joystick > joystick.bin
  ./tas recover joystick.bin -o recovered.movie < examples/joystick.journal
  ./tas recover joystick.bin --cart last.bin -o last.movie < examples/joystick.journal";

pub(crate) const SEARCH_HELP: &str = "\
Standard input is the movie text, as for 'tas check'. An input is chosen for each of FRAMES frames
from FROM on, and the best of all sequences of such choices is sought. GOAL says what is best:
  reach E    the fewest choices after which E isn't 0; within a choice it isn't looked at
  most E     the greatest value of E after all FRAMES frames
  least E    the smallest one
E is a number (85), a byte of RAM (byte:8A; bcd:8A as two decimal digits; pair:8A with the next
byte), a name of the names file, 'not' and one of these, or two with an operator between them: + - *
== != < <= > >= and or. Each further operator has parentheses, with spaces around them:
'reach ( x == 85 ) and ( y < 9 )'.
CHOICES has a frame in each line, as '..D.F ..... .....'. Without it the choices are the left
stick's nine directions, and the same with fire. NAMES has a name and an address in each line, as
'x 85'. With --hold a choice is held for N frames, and FRAMES is a multiple of N.
With --first 2/3 only the second of three parts is searched: the sequences that begin with the
second third of the choices. If no part stopped, the best of the parts is the best of all, so
several processes can search parts of it. The verdict on a part begins with 'part 2 of 3: '.
Standard output is a script for 'tas edit' that writes the best sequence into the movie: of those
that are as good the first one, in the order of the choices.
The sequences of one choice are searched first, then those of two, and so on. The different states
that those of K choices reach are layer K. Standard error gets a line for each layer once it is
searched, and at the end the verdict: 'best of all M sequences', where M counts all that there are,
with --first those of the part. The new file REPORT gets the same lines. If no sequence does what
GOAL asks for, the verdict begins with 'none'. If layer K has more than STATES states, the search
ends there, and the verdict begins with 'stopped: more than STATES states in layer K'. Neither
writes a script. A greater number after --most takes more memory. The answer is the same whatever
the number of threads.

Examples:
  examples/cart joystick > joystick.bin
  ./tas search joystick.bin 35 20 'reach byte:80 <= 70' < examples/joystick.movie > best.script
  ./tas edit joystick.bin best.script -o best.movie < examples/joystick.movie";

pub(crate) const VERIFY_HELP: &str = "\
Standard input is a manifest, a line for each movie: the movie's file, the cartridge's file or its
SHA-256 in 64 lower case hexadecimal digits, and the file with the digest that 'tas digest' made of
them. A '#' and all after it is a remark, and so are the spaces before it. A line may be empty.
Between the words are tabs where the line has one before its remark, so that names may have spaces,
and else spaces.
Each movie is played, and standard output has a line for each, in the manifest's order: its name and
  ok                     its digest is still the one that was stored, in the same stretches
  differs at K           it differs first in the stretch that begins with frame K
  differs in line L      it differs in line 1 to 4: the machine's profile, the cartridge, the movie
  halted at F00D by 02, or another fault of 'tas digest'
  movie not found, cartridge not found, digest not found, or why one couldn't be read
and a last line that counts, as '498 of 500 ok'. The status is 0 only if all are ok.
A cartridge that is named by its SHA-256 is found among the files of 2048 and 4096 bytes right in
DIR, whatever their names. If a line of the manifest is at fault, no movie is played. The lines
don't depend on the number of threads. At a terminal, standard error says from time to time how many
movies are done and left, and how many frames are played in a second.

Example:
  examples/cart joystick > joystick.bin
  ./tas digest joystick.bin < examples/joystick.movie > joystick.digest
  echo examples/joystick.movie joystick.bin joystick.digest | ./tas verify";

pub(crate) const SHOT_HELP: &str = "\
Standard input is the movie text, as for 'tas check'.
Standard output is the picture of frame K, 160 by 210 pixels as a binary portable pixmap (P6),
replayed from power-on.

Example:
  examples/cart joystick > joystick.bin
  ./tas shot joystick.bin 60 < examples/joystick.movie > frame60.ppm";

pub(crate) const FILM_HELP: &str = "\
Standard input is the movie text, as for 'tas check'.
Standard output is the pictures of the frames FROM to TO - 1, each as for 'tas shot', one after the
other: any number of them, each written as soon as it is played. FROM is 0 and TO the movie's length
if not given. A halted frame ends the film with its fault; the pictures of the frames before it are
written.

Example:
  examples/cart joystick > joystick.bin
  ./tas film joystick.bin < examples/joystick.movie |
    ffmpeg -y -f ppm_pipe -frame_size 100815 -framerate 60 -i - \\
      -vf scale=640:420:flags=neighbor -pix_fmt yuv420p film.mp4";

pub(crate) const EXPORT_HELP: &str = "\
Standard input is the movie text, as for 'tas check'.
Standard output is the pictures of the frames FROM to TO - 1, at most 1024, each as for 'tas shot',
one after the other. WORKERS threads replay the movie from power-on and share the frames; the
pictures don't depend on their number. Nothing is written before all are ready. For a longer film
there is 'tas film', which writes each picture as soon as it is played.

Example:
  examples/cart joystick > joystick.bin
  ./tas export joystick.bin 0 120 4 < examples/joystick.movie |
    ffmpeg -y -f ppm_pipe -frame_size 100815 -framerate 60 -i - \\
      -vf scale=640:420:flags=neighbor -pix_fmt yuv420p film.mp4";

pub(crate) const RAM_HELP: &str = "\
Standard input is the movie text, as for 'tas check'.
Standard output has a line 'K DIGITS' for each K from FROM to TO - 1: the 128 bytes of RAM after K
frames from power-on, addresses 80 to FF, as 256 upper case hexadecimal digits. K is a number of
frames: 0 is power-on, and TO is at most the movie's length plus one. Frame K - 1 is the last one
that is played before line K.
With --names standard output is a table instead, for spreadsheets and plots: a head line 'frames
played,NAME,..', and for each K a line of K and the bytes with these names, in decimal digits, with
commas between. NAMES has a name and an address in each line, as 'x 85' ('tas help search').

Example, address 80 after each of the first ten frames, and the same as a table:
  examples/cart joystick > joystick.bin
  ./tas ram joystick.bin 1 11 < examples/joystick.movie | awk '{ print $1, substr($2, 1, 2) }'
  echo 'height 80' > joystick.names
  ./tas ram joystick.bin 1 11 --names joystick.names < examples/joystick.movie > height.csv";

pub(crate) const DIGEST_HELP: &str = "\
Standard input is the movie text, as for 'tas check'.
Standard output is what to keep beside a movie, to show later that it still plays the same: the
machine's version, the SHA-256 of the cartridge and of the movie's text of runs, and a line
'frames A to B ram HEX picture HEX' for each stretch of EVERY frames, 600 if not given (B isn't
included): the SHA-256 of RAM after each frame of the stretch, and that of the picture of its last
frame. 'diff' of two digests shows the first stretch that plays differently. A halted frame is a
fault, and nothing is written then.

Example:
  examples/cart joystick > joystick.bin
  ./tas digest joystick.bin 60 < examples/joystick.movie > joystick.digest";

pub(crate) const COMPARE_HELP: &str = "\
Standard input is a movie text, as for 'tas check', and OLD is the file with the text of an older
one. Standard output has three lines, 'input I', 'ram R' and 'picture P': the first frame, counted
from 0, at which the inputs of the two movies differ, RAM after the frame, and the picture; or
'none'. Where one movie ends sooner, they differ at its end. Up to the first input that differs they
are played as one.

Example:
  examples/cart joystick > joystick.bin
  ./tas edit joystick.bin examples/mend.script -o mended.movie < examples/joystick.movie
  ./tas compare joystick.bin examples/joystick.movie < mended.movie";

pub(crate) const LAG_HELP: &str = "\
Standard input is the movie text, as for 'tas check'.
Standard output is the lag frames of the movie, those whose input nothing reads, as lines 'A B':
frames A to B - 1, counted from 0. Whatever the input of such a frame, its picture and all that
follows are the same.

Example:
  examples/cart joystick > joystick.bin
  ./tas lag joystick.bin < examples/joystick.movie";

pub(crate) const EDIT_HELP: &str = "\
Standard input is the movie text, as for 'tas check'. The script's file has edits, a line each:
  insert PLACE COUNT FRAME     insert COUNT frames such as 'R.... ..... .....'
  replace PLACE COUNT FRAME    replace COUNT frames
  delete PLACE COUNT           delete COUNT frames
  press PLACE COUNT FRAME      press what FRAME has in COUNT frames; the rest of them stays
  release PLACE COUNT FRAME    release what FRAME has in COUNT frames; the rest of them stays
  repeat PLACE COUNT TIMES     insert COUNT frames TIMES more times, directly after themselves
  copy FROM COUNT PLACE        insert a copy of the COUNT frames from FROM before frame PLACE
  copy other FROM COUNT PLACE  the same, from the movie whose text is in the file OTHER
A frame is 'RLDUF RLDUF rsbAB': right, left, down, up and fire of the left stick; the same of the
right stick; reset, select, black and white, left difficulty A, right difficulty A. A dot in a
letter's place means that it isn't pressed or set: '..D.F ..... .....' pushes the left stick down
and fires.
A '#' and all after it to the end of a line is a remark. It is left out with the spaces before it; a
line without one may not end in a space. Lines that are empty or have a remark alone ask for
nothing, but count in the line numbers of faults.
Frames are counted from 0. The lines are made in order, each on the movie that those before it made.
Standard output is the text of the last one. A line that isn't understood, or that reaches past the
last frame or makes the movie too long, ends the command with its fault and nothing written.
With -o FILE the text is written to a new file beside FILE, which then takes FILE's name: so FILE is
the old movie or the whole new one at every moment, and may be the file that the movie is read from.
A shell empties the file after '>' before the program starts, so don't write the movie over itself
that way.

Examples:
  ./tas edit joystick.bin examples/mend.script -o mended.movie < examples/joystick.movie
  echo press 30 5 ....F ..... ..... > fire.script
  ./tas edit joystick.bin fire.script -o mended.movie < mended.movie";

pub(crate) const CUT_HELP: &str = "\
Standard input is the movie text, as for 'tas check'.
Standard output is the text of the movie of the frames FROM to TO - 1 alone, which begins at
power-on as every movie does.

Example, all but the first second:
  examples/cart joystick > joystick.bin
  ./tas cut joystick.bin 60 120 -o end.movie < examples/joystick.movie";

pub(crate) const DIFF_HELP: &str = "\
Standard input is a movie text, as for 'tas check', and OLD is the file with the text of an older
one. Standard output is a script for 'tas edit' that turns the old movie into the new one: nothing
where they are equal.

Example:
  ./tas diff joystick.bin examples/joystick.movie < mended.movie";

pub(crate) const SCRIPT_HELP: &str = "\
Standard input is the script: edits of a movie and looks at it, a line each:
  load OFF=HEX ..            take a cartridge of 4096 zeros with these bytes
  load2 OFF=HEX ..           take one of 2048 zeros
  insert PLACE COUNT FRAME   insert COUNT frames such as 'R.... ..... .....'
  replace PLACE COUNT FRAME  replace COUNT frames
  delete PLACE COUNT         delete COUNT frames
  len, input K, shot K       report the length, an input, or what frame K shows
  work K                     keep states up to frame K
Standard output has a reply for each line; refusals are replies, too. A line that isn't understood
ends the script. With --cart and --movie the script starts from this movie, which counts as two
edits; else from a blank cartridge with no frames.

Examples:
  ./tas script < examples/edits.script
  echo shot 60 | ./tas script --cart joystick.bin --movie examples/joystick.movie";

pub(crate) const TALK_HELP: &str = "\
Standard input is lines, as of 'tas script', and standard output has the answer to each before the
next one is read, so that another program can hold the conversation. It has these lines, too:
  press PLACE COUNT FRAME    press what FRAME has in COUNT frames; the rest of them stays
  release PLACE COUNT FRAME  release what FRAME has in COUNT frames; the rest of them stays
  repeat PLACE COUNT TIMES   insert COUNT frames TIMES more times, directly after themselves
  copy FROM COUNT PLACE      insert a copy of the COUNT frames from FROM before frame PLACE
  picture K                  a line 'picture AT K BYTES', then BYTES bytes: the pixmap of frame K
  pictures FROM TO           the answers to 'picture K' for FROM to TO - 1, 1 to 1024 of them
  ram K                      'ram AT K' and 256 hexadecimal digits: RAM after K frames from power-on
  digest K                   'digest AT K ram HEX picture HEX': SHA-256 of RAM after frame K, and of
                             its pixmap
  lag A B                    a line 'lag AT A B BYTES', then BYTES bytes: the lag frames of A to
                             B - 1
  inputs FROM TO             a line 'inputs AT FROM TO BYTES', then BYTES bytes: lines 'PLACE COUNT
                             FRAME', the runs of equal inputs of FROM to TO - 1, 1 to 1024 of them
  movie                      a line 'movie AT BYTES', then BYTES bytes: the movie's text
  states                     'states AT N' and the N frames after which a machine state is kept
  share                      'share AT N': shots now use the states that any seat's 'work' kept: N
                             more
  history FROM               a line 'history AT FROM COUNT BYTES', then BYTES bytes: edits from
                             number FROM on, lines 'NUMBER SEAT LINE', LINE as of a script; ask on
                             from FROM + COUNT
  version                    'version PROGRAM profile N format N bytes WORDS': the version of the
                             program, the numbers of the machine's profile and of the answers'
                             format, and the first words of the answers after which bytes follow
  begin                      'begin AT LEN': a draft is opened; until it is committed or dropped,
                             lines change the draft alone and are answered by it
  commit                     'commit AT LEN': what the draft has changed is made in one step of at
                             most two edits; 'moved AT' where others have edited the movie since,
                             and nothing is made
  drop                       'dropped': the draft is given up
  quit                       ends the conversation, as the end of standard input does
AT is the number of edits so far. A line that isn't understood changes nothing, and is answered
'unknown' and why: 'long', more than 16384 bytes; 'end', no newline; 'return', a carriage return;
'rest', what follows a line's first word; or 'word'. With CART it starts from this cartridge, with
MOVIE from this movie. That counts as two edits. Outside a draft a step from a picture to the next
one plays one frame. Two of CART, MOVIE, standard input and standard output that are one ordinary
file end it with status 2.
With -o FILE the movie that the edits have made replaces FILE at the end, whatever ended the
conversation; FILE may be MOVIE. A draft that is open then is lost. Without MOVIE FILE must be empty
or not there.
With --journal JOURNAL the new file JOURNAL has each edit, and is on the disk, before the answer to
it goes out. 'tas recover' makes the movie of it, whatever ended the program. (A crash of the system
soon after the start may take the file.) If it can't be written the conversation ends. If a file
JOURNAL is there the status is 2.
Fill a long movie by 'work' in steps, as 'work 4096', 'work 8192': each answer is the progress.
A frame is 'RLDUF RLDUF rsbAB': right, left, down, up and fire of the left stick; the same of the
right stick; reset, select, black and white, left difficulty A, right difficulty A. A dot in a
letter's place means that it isn't pressed or set.

Examples:
  printf 'len\\nshot 60\\nstates\\nquit\\n' | ./tas talk joystick.bin examples/joystick.movie
  echo delete 60 60 | ./tas talk joystick.bin examples/joystick.movie -o short.movie
  echo delete 0 9 | ./tas talk joystick.bin examples/joystick.movie --journal day.journal
  ./tas recover joystick.bin -o day.movie < day.journal";

pub(crate) const DESK_HELP: &str = "\
Up to eight programs edit one movie at the same time. Each has a pair of files, as a rule two named
pipes: it writes lines to IN and reads the answers from OUT. Its lines and answers are those of
'tas talk', but AT counts the edits of all. Each answer is right for the movie of AT edits. CART and
MOVIE are the movie to start from; they count as the first two edits.
No two of the words and standard output may stand for one ordinary file, and an OUT that is one
must be empty: else nothing is opened, and the status is 2. Pipes and devices may be named more
than once.
IN of a pair is opened first, and then OUT. Opening a pipe waits for the other end, so a program
must open its IN, to write, before its OUT, to read. If it opens OUT first, both wait forever.
With --journal JOURNAL the new file JOURNAL has the edits of all, each before the answer to it goes
out, as for 'tas talk', and 'tas recover' makes the movie of it. It takes the place of a pair: at
most seven go with it. If it can't be written, each conversation ends at its next line that may
edit; answers to other lines don't wait for it. JOURNAL must not be there yet, nor have the name of
a pair's file: else the status is 2.
A pair's conversation ends with 'quit' or the end of IN, and both files are closed then. Standard
input isn't read. Once all conversations have ended, standard output has the text of the movie that
all edits made.
Status: 0 if all conversations ended so. 1 if one ended with a fault, 'fault: seat K: ..', where K
is 0 for IN0 and OUT0: all others have gone on, and the movie is written. 1 also if CART or MOVIE is
at fault, or JOURNAL can't be made or begun: then no pair is opened, and nothing is written.

Example, with one pair and the shell as its program:
  rm -f in0 out0 desk.journal; mkfifo in0 out0
  ./tas desk joystick.bin examples/joystick.movie in0 out0 --journal desk.journal > new.movie &
  exec 3> in0 4< out0
  echo insert 0 5 R.... ..... ..... >&3; read answer <&4; echo $answer
  echo quit >&3; wait
  ./tas recover joystick.bin < desk.journal";
