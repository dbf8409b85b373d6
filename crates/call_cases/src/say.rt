// Answers as text, a line for each case. What follows the case's number begins with a space. Words and numbers are written one by one, and where one is
// not taken the next is written all the same.
use exchange::Fault;
use refusal::{Degrees, Refusal};
use table::read::Pair;

pub fn text(rt: HostRuntime, words: &str) {
    let _ = print!(rt; "{words}");
}

// What is said of a number, and the number.
pub fn one<N: Into<u64>>(rt: HostRuntime, what: &str, number: N) {
    text(rt, what);
    let number: u64 = number.into();
    let _ = print!(rt; "{number}");
}

fn refused(rt: HostRuntime, why: Refusal) {
    one(rt, " refused ", why.number());
    one(rt, " ", why.place());
}

pub fn table(rt: HostRuntime, answer: Result<(), Refusal>) {
    match answer {
        Ok(()) => text(rt, " table"),
        Err(why) => refused(rt, why),
    }
}

pub fn degree(rt: HostRuntime, answer: Result<u16, Refusal>) {
    match answer {
        Ok(degree) => one(rt, " degree ", degree),
        Err(why) => refused(rt, why),
    }
}

pub fn arity(rt: HostRuntime, answer: Result<u8, Refusal>) {
    match answer {
        Ok(arity) => one(rt, " arity ", arity),
        Err(why) => refused(rt, why),
    }
}

pub fn pair(rt: HostRuntime, answer: Result<Pair, Refusal>) {
    match answer {
        Ok(pair) => {
            one(rt, " pair ", pair.lower);
            one(rt, " ", pair.higher);
            one(rt, " ", pair.degree);
        }
        Err(why) => refused(rt, why),
    }
}

pub fn matched(rt: HostRuntime, answer: Result<Degrees, Refusal>) {
    match answer {
        Ok(degrees) => {
            one(rt, " match ", degrees.lowest);
            one(rt, " ", degrees.highest);
        }
        Err(why) => refused(rt, why),
    }
}

pub fn written(rt: HostRuntime, answer: Result<usize, Refusal>) {
    match answer {
        Ok(total) => one(rt, " written ", total as u64),
        Err(why) => refused(rt, why),
    }
}

pub fn headed(rt: HostRuntime, answer: Result<(), Fault>) {
    match answer {
        Ok(()) => text(rt, " heading"),
        Err(why) => {
            one(rt, " refused ", why.number());
            one(rt, " ", why.place() as u64);
        }
    }
}

// A list that was handed back: its length, and its nodes.
pub fn nodes(rt: HostRuntime, what: &str, nodes: &[u16]) {
    one(rt, what, nodes.len() as u64);
    for node in nodes {
        one(rt, " ", *node);
    }
}
