// Counts with every pair of some numbers, many of them at the limits, in both kinds, and with every reciprocal of REST.

#![tactic(auto)]

use fractions::Fraction;
use kinds::Kind;
use kinds::refusal::Refusal;
use printing::Print;
use remainders::Remainder;
use std::str::from_utf8;

// Numerators and denominators.
const NUMBERS: [(i32, i32); 25] = [
    (0, 1),
    (1, 1),
    (-1, 1),
    (2, 1),
    (-3, 1),
    (1, 2),
    (-1, 2),
    (2, 3),
    (-5, 6),
    (7, 10),
    (46_340, 1),
    (46_341, 1),
    (1, 46_340),
    (-1, 46_341),
    (9_973, 1),
    (1_000_000_000, 1),
    (2_147_483_647, 1),
    (-2_147_483_647, 1),
    (1, 2_147_483_647),
    (-1, 2_147_483_646),
    (2_147_483_647, 2_147_483_646),
    (-2_147_483_646, 2_147_483_647),
    (65_536, 1),
    (1, 32_768),
    (-32_768, 1),
];

// A whole number of any size, from thirds that can be taken.
fn whole<K: Kind>(z: i32) -> Result<K, Refusal> {
    let third = z / 3;
    let part = K::take(third)?;
    let rest = K::take(z - third - third)?;
    Ok(part.sum(part)?.sum(rest)?)
}

// Adds the text of a value, or the number of the refusal.
fn show<K: Print>(out: &mut String, res: Result<K, Refusal>) -> anyhow::Result<()> {
    let mut memory = [b' '; 22];
    match res.and_then(|value| value.print(&mut memory)) {
        Ok(count) => {
            let text = from_utf8(&memory[0..count])?;
            write!(out, " {text}")?;
        }
        Err(refusal) => {
            let number = refusal.number();
            write!(out, " refused:{number}")?;
        }
    }
    Ok(())
}

// Adds all that two numbers give.
fn pair<K: Print>(out: &mut String, a: K, b: K) -> anyhow::Result<()> {
    show(out, Ok(a))?;
    show(out, Ok(b))?;
    write!(out, ":")?;
    show(out, a.sum(b).map_err(Refusal::from))?;
    show(out, a.difference(b).map_err(Refusal::from))?;
    show(out, a.product(b).map_err(Refusal::from))?;
    show(out, a.quotient(b))?;
    let (zero, alike, heavier) = (a.is_zero(), a.alike(b), a.heavier(b));
    write!(out, " {zero} {alike} {heavier}\n")?;
    Ok(())
}

fn number<K: Kind>(of: (i32, i32)) -> Result<K, Refusal> {
    let top: K = whole(of.0)?;
    top.quotient(whole(of.1)?)
}

fn table<K: Print>(out: &mut String) -> anyhow::Result<()> {
    let mark = K::mark_letters();
    let longest = K::longest_text();
    let text = from_utf8(&mark)?;
    write!(out, "{text} {longest}\n")?;
    for left in NUMBERS {
        for right in NUMBERS {
            let a: Result<K, Refusal> = number(left);
            let b: Result<K, Refusal> = number(right);
            match (a, b) {
                (Ok(a), Ok(b)) => pair(out, a, b)?,
                _ => write!(out, " no such number\n")?,
            }
        }
    }
    Ok(())
}

// One divided by a number.
fn reciprocal(n: i32) -> Result<Remainder, Refusal> {
    Remainder::take(1)?.quotient(Remainder::take(n)?)
}

// Whether a number times its reciprocal is one.
fn gives_one(n: i32) -> Result<bool, Refusal> {
    let product = Remainder::take(n)?.product(reciprocal(n)?)?;
    Ok(product.alike(Remainder::take(1)?))
}

// Adds the reciprocal of every remainder, twenty to a line, and how many of them are right.
fn reciprocals(out: &mut String) -> anyhow::Result<()> {
    for n in 0..9_973 {
        show(out, reciprocal(n))?;
        if n % 20 == 19 {
            write!(out, "\n")?;
        }
    }
    let right = (0..9_973)
        .filter(|&n| gives_one(n).unwrap_or(false))
        .count();
    write!(out, "\n{right}\n")?;
    Ok(())
}

fn main(rt: HostRuntime) -> anyhow::Result<()> {
    let mut out = String::new(rt.alloc());
    table::<Fraction>(&mut out)?;
    table::<Remainder>(&mut out)?;
    reciprocals(&mut out)?;
    rt.print(out)?;
    Ok(())
}
