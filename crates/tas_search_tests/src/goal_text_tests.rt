//! Texts of goals, names files and choices files.

use crate::checks::{check_same, check_that, expect_ok};
use std::alloc::Global;
use std::process::Abort;
use tas_search::{
    ChoicesError, ChoicesFaultKind, Goal, GoalFault, GoalKind, Measure, Name, NamesError,
    NamesFaultKind, Wanted, read_choices, read_goal, read_names,
};

/// A names file.
const NAMES: &[u8] = b"x 80\nscore 81\nend FF\n";

/// RAM with 12, 34 and 00 at its beginning and 99 at its end.
fn ram() -> [u8; 128] {
    let mut ram = [0u8; 128];
    ram[0] = 0x12;
    ram[1] = 0x34;
    ram[127] = 0x99;
    ram
}

/// What a text asks for, and the number that its expression makes of this RAM.
fn asked(read: &Result<Goal, GoalFault>) -> Option<(GoalKind, i64)> {
    match read {
        Ok(goal) => Some((goal.kind, goal.formula.value(&ram()))),
        Err(_) => None,
    }
}

/// Why a text is no goal.
fn goal_fault(read: &Result<Goal, GoalFault>) -> Option<GoalFault> {
    match read {
        Ok(_) => None,
        Err(fault) => Some(*fault),
    }
}

fn names<R: Abort>(rt: &R, alloc: Global) -> Vec<Name> {
    expect_ok(rt, read_names(alloc, NAMES))
}

#[test]
fn texts_of_goals(rt: HostRuntime) {
    let alloc = rt.alloc();
    let names = names(&rt, alloc);
    for (case, (text, kind, value)) in [
        (b"reach 85".as_slice(), GoalKind::Reach, 85i64),
        (b"reach 4294967295", GoalKind::Reach, 4294967295),
        (b"most byte:80", GoalKind::Most, 18),
        (b"most bcd:80", GoalKind::Most, 12),
        (b"least pair:80", GoalKind::Least, 13330),
        (b"least pair:FF", GoalKind::Least, 4761),
        (b"reach x", GoalKind::Reach, 18),
        (b"reach bcd:score", GoalKind::Reach, 34),
        (b"reach pair:end", GoalKind::Reach, 4761),
        (b"reach not x", GoalKind::Reach, 0),
        (b"reach not not x", GoalKind::Reach, 1),
        (b"reach not x == 0", GoalKind::Reach, 1),
        (b"reach not ( x == 0 )", GoalKind::Reach, 1),
        (b"most not x + 5", GoalKind::Most, 5),
        (b"reach x == 18", GoalKind::Reach, 1),
        (b"reach ( x == 18 )", GoalKind::Reach, 1),
        (b"reach x != 18", GoalKind::Reach, 0),
        (b"reach x < score", GoalKind::Reach, 1),
        (b"reach x <= score", GoalKind::Reach, 1),
        (b"reach x > score", GoalKind::Reach, 0),
        (b"reach x >= score", GoalKind::Reach, 0),
        (b"most x + score", GoalKind::Most, 70),
        (b"most x - score", GoalKind::Most, -34),
        (b"most ( x - score ) * ( x + 2 )", GoalKind::Most, -680),
        (b"most x - ( score - 2 )", GoalKind::Most, -32),
        (
            b"reach ( x == 18 ) and not ( score == 52 )",
            GoalKind::Reach,
            0,
        ),
        (
            b"reach ( x == 1 ) or ( ( 2 < 3 ) and ( score == 52 ) )",
            GoalKind::Reach,
            1,
        ),
    ]
    .iter()
    .enumerate()
    {
        let read = read_goal(alloc, names.as_slice(), text);
        check_same(&rt, case, asked(&read), Some((*kind, *value)));
    }
}

/// A fault of a word.
fn at(word: usize, wanted: Wanted) -> GoalFault {
    GoalFault::Word { word, wanted }
}

#[test]
fn texts_that_are_no_goals(rt: HostRuntime) {
    let alloc = rt.alloc();
    let names = names(&rt, alloc);
    for (case, (text, fault)) in [
        (b"".as_slice(), GoalFault::Kind),
        (b"reach", GoalFault::Kind),
        (b"Reach x", GoalFault::Kind),
        (b"reach ", at(2, Wanted::Operand)),
        (b"reach  x", at(2, Wanted::Operand)),
        (b"reach x ", at(3, Wanted::Operator)),
        (b"reach x  == 1", at(3, Wanted::Operator)),
        (b"reach y", at(2, Wanted::Operand)),
        (b"reach )", at(2, Wanted::Operand)),
        (b"reach ==", at(2, Wanted::Operand)),
        (b"reach 085", at(2, Wanted::Operand)),
        (b"reach 4294967296", at(2, Wanted::Operand)),
        (b"reach byte:7F", at(2, Wanted::Operand)),
        (b"reach byte:8a", at(2, Wanted::Operand)),
        (b"reach byte:", at(2, Wanted::Operand)),
        (b"reach bcd:y", at(2, Wanted::Operand)),
        (b"reach (x == 1)", at(2, Wanted::Operand)),
        (b"reach x y", at(3, Wanted::Operator)),
        (b"reach x = 1", at(3, Wanted::Operator)),
        (b"reach x ==", at(4, Wanted::Operand)),
        (b"reach x == == 1", at(4, Wanted::Operand)),
        (b"reach x == 1 and x", at(5, Wanted::End)),
        (b"reach ( x )", at(4, Wanted::Operator)),
        (b"reach ( x == 1 == 2 )", at(6, Wanted::Close)),
        (b"reach ( x == 1", at(6, Wanted::Close)),
        (b"reach ( x == ) )", at(5, Wanted::Operand)),
        (b"reach ( ( x == 1 ) and 2 ) )", at(11, Wanted::Operator)),
        (b"reach not", at(3, Wanted::Operand)),
        (b"reach x == 1 and y == 2", at(5, Wanted::End)),
        (b"reach $85 == 1", at(2, Wanted::Operand)),
        (b"reach 0x85 == 1", at(2, Wanted::Operand)),
        (b"reach x == -1", at(4, Wanted::Operand)),
        (b"most ( 4294967295 * 4294967295 ) * 2", GoalFault::Great),
    ]
    .iter()
    .enumerate()
    {
        let read = read_goal(alloc, names.as_slice(), text);
        check_same(&rt, case, goal_fault(&read), Some(*fault));
    }
}

/// A goal of a number after this many times `not`.
fn negations<R: Abort>(rt: &R, alloc: Global, count: usize) -> Vec<u8> {
    let mut text = expect_ok(rt, Vec::from_slice(alloc, b"reach "));
    for _ in 0..count {
        expect_ok(rt, text.extend_from_slice(b"not "));
    }
    expect_ok(rt, text.push(b'7'));
    text
}

#[test]
fn at_most_64_levels(rt: HostRuntime) {
    let alloc = rt.alloc();
    let none = expect_ok(&rt, read_names(alloc, b""));
    let deepest = negations(&rt, alloc, 64);
    let read = read_goal(alloc, none.as_slice(), deepest.as_slice());
    check_same(&rt, 64, asked(&read), Some((GoalKind::Reach, 1)));
    let deeper = negations(&rt, alloc, 65);
    let refused = read_goal(alloc, none.as_slice(), deeper.as_slice());
    check_same(&rt, 65, goal_fault(&refused), Some(at(66, Wanted::Depth)));
}

/// A goal of sums in this many parentheses.
fn parentheses<R: Abort>(rt: &R, alloc: Global, count: usize) -> Vec<u8> {
    let mut text = expect_ok(rt, Vec::from_slice(alloc, b"reach "));
    for _ in 0..count {
        expect_ok(rt, text.extend_from_slice(b"( "));
    }
    expect_ok(rt, text.push(b'7'));
    for _ in 0..count {
        expect_ok(rt, text.extend_from_slice(b" + 1 )"));
    }
    text
}

#[test]
fn at_most_64_parentheses(rt: HostRuntime) {
    let alloc = rt.alloc();
    let none = expect_ok(&rt, read_names(alloc, b""));
    let deepest = parentheses(&rt, alloc, 64);
    let read = read_goal(alloc, none.as_slice(), deepest.as_slice());
    check_same(&rt, 64, asked(&read), Some((GoalKind::Reach, 71)));
    let deeper = parentheses(&rt, alloc, 65);
    let refused = read_goal(alloc, none.as_slice(), deeper.as_slice());
    check_same(&rt, 65, goal_fault(&refused), Some(at(66, Wanted::Depth)));
}

#[test]
fn names_mean_their_bytes(rt: HostRuntime) {
    let alloc = rt.alloc();
    let read = expect_ok(
        &rt,
        read_names(alloc, b"x 80\n_ 81\nA 81\nab_2 FF\nABC 80\n"),
    );
    for (case, (text, value)) in [
        (b"most x".as_slice(), 18i64),
        (b"most _", 52),
        (b"most byte:A", 52),
        (b"most ab_2", 153),
        (b"most pair:ABC", 13330),
    ]
    .iter()
    .enumerate()
    {
        let goal = read_goal(alloc, read.as_slice(), text);
        check_same(&rt, case, asked(&goal), Some((GoalKind::Most, *value)));
    }
}

#[test]
fn names_files(rt: HostRuntime) {
    let alloc = rt.alloc();
    for (case, (text, line, kind)) in [
        (b"x 85".as_slice(), 1, NamesFaultKind::End),
        (b"x 85\ny 86", 2, NamesFaultKind::End),
        (b"x\n", 1, NamesFaultKind::Space),
        (b"\n", 1, NamesFaultKind::Space),
        (b"x 7F\n", 1, NamesFaultKind::Address),
        (b"x 8a\n", 1, NamesFaultKind::Address),
        (b"x 185\n", 1, NamesFaultKind::Address),
        (b"x y 85\n", 1, NamesFaultKind::Address),
        (b" 85\n", 1, NamesFaultKind::Name),
        (b"x 85\nx 86\n", 2, NamesFaultKind::Name),
        (b"12 85\n", 1, NamesFaultKind::Name),
        (b"not 85\n", 1, NamesFaultKind::Name),
        (b"<= 85\n", 1, NamesFaultKind::Name),
        (b"bcd:82 85\n", 1, NamesFaultKind::Name),
        (b"byte:x 86\nx 85\n", 1, NamesFaultKind::Name),
        (b"x 85\nbyte:x 86\n", 2, NamesFaultKind::Name),
        (b"8A 90\n", 1, NamesFaultKind::Name),
        (b"AB 90\n", 1, NamesFaultKind::Name),
        (b"085 90\n", 1, NamesFaultKind::Name),
        (b"4294967296 90\n", 1, NamesFaultKind::Name),
        (b"= 90\n", 1, NamesFaultKind::Name),
        (b"(x 90\n", 1, NamesFaultKind::Name),
        (b"x- 90\n", 1, NamesFaultKind::Name),
        (b"and 90\n", 1, NamesFaultKind::Name),
        (
            b"x 85\n_ 86\nAb 87\nab_2 87\nABC 88\nAB 89\n",
            6,
            NamesFaultKind::Name,
        ),
    ]
    .iter()
    .enumerate()
    {
        let found = match read_names(alloc, text) {
            Ok(_) => None,
            Err(error) => Some(error),
        };
        let wanted = NamesError::Line {
            line: *line,
            kind: *kind,
        };
        check_same(&rt, case, found, Some(wanted));
    }
}

#[test]
fn choices_files(rt: HostRuntime) {
    let alloc = rt.alloc();
    let two = b"..... ..... .....\nR...F ..... r....\n";
    let choices = expect_ok(&rt, read_choices(alloc, two));
    check_same(&rt, 0, choices.len(), 2);
    for (k, (right, fire, reset)) in [(false, false, false), (true, true, true)]
        .iter()
        .enumerate()
    {
        let found = choices.get(k).map(|choice| (
            choice.left.right,
            choice.left.fire,
            choice.reset,
        ));
        check_same(&rt, k, found, Some((*right, *fire, *reset)));
    }
    for (case, (text, line, kind)) in [
        (b"".as_slice(), 1, ChoicesFaultKind::End),
        (b"..... ..... .....", 1, ChoicesFaultKind::End),
        (b"\n", 1, ChoicesFaultKind::Frame),
        (b"..... ..... ..... x2\n", 1, ChoicesFaultKind::Frame),
        (
            b"..... ..... .....\nr.... ..... .....\n",
            2,
            ChoicesFaultKind::Frame,
        ),
    ]
    .iter()
    .enumerate()
    {
        let found = match read_choices(alloc, text) {
            Ok(_) => None,
            Err(error) => Some(error),
        };
        let wanted = ChoicesError::Line {
            line: *line,
            kind: *kind,
        };
        check_same(&rt, case, found, Some(wanted));
    }
}
