//! Reads how numbers are chosen: the keys `parity`, `numbers` and `seed`.
ghost use Rattle.std.specs.Prelude.{◌≡◌};
ghost use Rattle.toml.specs.View.{view, table_view};
ghost use Rattle.napt_config.specs.Fault.{ReadPost};
ghost use Rattle.napt_config.specs.Configured.{keeps_parity_in, is_random_in, seed_of, seed_at, seed_in, choosing_in};

use crate::values::{required, text_in, value_at};
use crate::{ConfigFault, ConfigPlace, NumberAssignment, Seed};
use hex::FromHex;
use toml::{Table, Value};

#[tactic(auto, unfolding(crate::specs::Configured::keeps_parity_in, crate::specs::Configured::word_at_key))]
fn keeps_parity(table: &Table, place: &mut ConfigPlace) -> Result<bool, ConfigFault>
    ensures { ReadPost (λ keeps. keeps) result (keeps_parity_in (table_view table.now)) }
{
    place.at_key("parity");
    let Some(value) = value_at(table, "parity") else {
        return Ok(true);
    };
    match text_in(value)? {
        "kept" => Ok(true),
        "free" => Ok(false),
        _ => Err(ConfigFault::BadWord),
    }
}

#[tactic(auto, unfolding(crate::specs::Configured::is_random_in, crate::specs::Configured::word_at_key))]
fn is_random(table: &Table, place: &mut ConfigPlace) -> Result<bool, ConfigFault>
    ensures { ReadPost (λ random. random) result (is_random_in (table_view table.now)) }
{
    place.at_key("numbers");
    let Some(value) = value_at(table, "numbers") else {
        return Ok(false);
    };
    match text_in(value)? {
        "random" => Ok(true),
        "preserved" => Ok(false),
        _ => Err(ConfigFault::BadWord),
    }
}

/// Returns the seed that 32 hexadecimal digits spell, or `None` for any other text.
fn seed_of(text: &str) -> Option<Seed>
    ensures { result ≡ seed_of text.now }
{
    match <[u8; 16] as FromHex>::from_hex(text) {
        Ok(bytes) => Some(Seed { bytes }),
        Err(_) => None,
    }
}

#[tactic(auto, unfolding(crate::specs::Configured::seed_at))]
fn seed_at(value: &Value) -> Result<Option<Seed>, ConfigFault>
    ensures { ReadPost (λ seed. seed) result (seed_at (view value.now)) }
{
    let seed = seed_of(text_in(value)?).ok_or(ConfigFault::BadSeed)?;
    Ok(Some(seed))
}

/// Reads the seed, which random numbers require and other numbers must not have.
#[tactic(auto, unfolding(crate::specs::Configured::seed_in))]
fn seed(
    table: &Table,
    is_random: bool,
    place: &mut ConfigPlace,
) -> Result<Option<Seed>, ConfigFault>
    ensures { ReadPost (λ seed. seed) result (seed_in is_random (table_view table.now)) }
{
    place.at_key("seed");
    if is_random {
        return seed_at(required(table, "seed")?);
    }
    if value_at(table, "seed").is_some() {
        return Err(ConfigFault::SeedUnused);
    }
    Ok(None)
}

/// Reads how numbers are chosen.
#[tactic(auto, unfolding(crate::specs::Configured::choosing_in))]
pub(crate) fn choosing(
    table: &Table,
    place: &mut ConfigPlace,
) -> Result<NumberAssignment, ConfigFault>
    ensures { ReadPost (λ choosing. choosing) result (choosing_in (table_view table.now)) }
{
    let keeps_parity = keeps_parity(table, place)?;
    let is_random = is_random(table, place)?;
    let seed = seed(table, is_random, place)?;
    Ok(NumberAssignment { keeps_parity, seed })
}
