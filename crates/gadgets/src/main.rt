//! Prints scripts of circuits whose verdict is known: `gadgets FAMILY FIELD SIZE`.
//!
//! FIELD is the order of a field. Without arguments the families are listed with their verdicts.
#![tactic(auto)]

mod bits;
mod choices;
mod comparing;
mod families;
mod gates;
mod linear;
mod rounds;
mod script;
mod tests_for_zero;
mod words;

use std::{env, io};

/// The order of BabyBear.
const ORDER: u64 = 2_013_265_921;

const SIZE: u32 = 4;

fn main(rt: HostRuntime) -> io::Result<()> {
    let mut arguments = env::args(&rt)?;
    let _program = arguments.next();
    let Some(family) = arguments.next() else {
        return families::list(&rt);
    };
    let order = arguments.next().and_then(|n| n.parse::<u64>().ok());
    let size = arguments.next().and_then(|n| n.parse::<u32>().ok());
    families::print(
        &rt,
        family.as_str(),
        order.unwrap_or(ORDER),
        size.unwrap_or(SIZE),
    )
}
