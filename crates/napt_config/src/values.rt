//! Reads the values of a table, which must be of the kinds that their keys ask for.
ghost use Rattle.std.specs.Prelude.{◌≡◌, ◌≤◌, option_map, IfOk};
ghost use Rattle.toml.specs.{Data.get_member, View.{view, table_view, items_view}};
ghost use Rattle.napt_config.specs.{Fault.ReadPost, Configured.{required, text_in, number_in, number_at_key, list_in, table_in}};

use crate::ConfigFault;
use toml::{Table, Value};

/// Returns the value at a key, or `None` if the key is absent.
pub(crate) fn value_at<'a>(table: &'a Table, key: &str) -> Option<&'a Value>
    ensures { option_map (λ value. view value.now) result ≡ get_member key.now
        (table_view table.now) }
{
    table.get(key)
}

/// Returns the value at a required key, or `ConfigFault::Missing` if it is absent.
pub(crate) fn required<'a>(table: &'a Table, key: &str) -> Result<&'a Value, ConfigFault>
    ensures { ReadPost (λ value. view value.now) result (required key.now (table_view table.now)) }
{
    match value_at(table, key) {
        Some(value) => Ok(value),
        None => Err(ConfigFault::Missing),
    }
}

/// Returns the text in a value, or `ConfigFault::BadShape` if it is no text.
pub(crate) fn text_in(value: &Value) -> Result<&str, ConfigFault>
    ensures { ReadPost (λ text. text.now) result (text_in (view value.now)) }
{
    match value.as_str() {
        Some(text) => Ok(text),
        None => Err(ConfigFault::BadShape),
    }
}

/// Returns the whole number in a value, or `ConfigFault::BadShape` if it is none.
pub(crate) fn number_in(value: &Value) -> Result<i64, ConfigFault>
    ensures { ReadPost (λ number. number) result (number_in (view value.now)) }
{
    match value.as_integer() {
        Some(number) => Ok(number),
        None => Err(ConfigFault::BadShape),
    }
}

/// Returns the whole number in a value, which must be from `least` to `most`.
#[tactic(auto, unfolding(crate::specs::Configured::number_at_key))]
pub(crate) fn number_at(value: &Value, least: u64, most: u64) -> Result<u64, ConfigFault>
    ensures exact { ReadPost (λ number. number) result (number_at_key least most (view value.now)) }
    ensures range { IfOk result (λ number. number ≤ most) }
{
    match u64::try_from(number_in(value)?) {
        Ok(number) if least <= number && number <= most => Ok(number),
        _ => Err(ConfigFault::BadNumber),
    }
}

/// Returns the list in a value, or `ConfigFault::BadShape` if it is no list.
pub(crate) fn list_in(value: &Value) -> Result<&[Value], ConfigFault>
    ensures { ReadPost (λ entries. items_view entries.now) result (list_in (view value.now)) }
{
    match value.as_array() {
        Some(entries) => Ok(entries.as_slice()),
        None => Err(ConfigFault::BadShape),
    }
}

/// Returns the table in a value, or `ConfigFault::BadShape` if it is no table.
pub(crate) fn table_in(value: &Value) -> Result<&Table, ConfigFault>
    ensures { ReadPost (λ keys. table_view keys.now) result (table_in (view value.now)) }
{
    match value.as_table() {
        Some(keys) => Ok(keys),
        None => Err(ConfigFault::BadShape),
    }
}
