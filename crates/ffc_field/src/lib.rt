//! The eight prime fields, and what holds in every field of prime order.
#![tactic(auto)]

mod field;
mod goldilocks;
mod id;
pub mod laws;
mod order;
mod remainder;
mod residue;
mod visitor;
mod word;

pub use field::Field;
pub use goldilocks::GoldilocksOrder;
pub use id::FieldId;
pub use order::{BabyBearOrder, FermatFour, Five, KoalaBearOrder, Order, Seventeen, Three, Two};
pub use residue::Residue;
pub use visitor::ForField;
pub use word::Word;

/// The field of order 2.
pub type F2 = Residue<u8, Two>;

/// The field of order 3.
pub type F3 = Residue<u8, Three>;

/// The field of order 5.
pub type F5 = Residue<u8, Five>;

/// The field of order 17.
pub type F17 = Residue<u8, Seventeen>;

/// The field of order 65537, a Fermat prime.
pub type F65537 = Residue<u32, FermatFour>;

/// The field of order 15 * 2^27 + 1.
pub type BabyBear = Residue<u32, BabyBearOrder>;

/// The field of order 127 * 2^24 + 1.
pub type KoalaBear = Residue<u32, KoalaBearOrder>;

/// The field of order 2^64 - 2^32 + 1.
pub type Goldilocks = Residue<u64, GoldilocksOrder>;

// Each element is a word of its own size.
const _: () = prove!(size_of::<F17>() == 1);

const _: () = prove!(size_of::<KoalaBear>() == 4);

const _: () = prove!(size_of::<Goldilocks>() == 8);
