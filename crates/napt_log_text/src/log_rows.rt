//! The text of the log of a run, part by part, while packets come.
ghost use Rattle.std.specs.{Prelude.{◌≡◌, ◌++◌, OnOk, option_map, string_bytes}, Int.NonZero.{non_zero_u32_get}};
ghost use Rattle.napt_account.specs.{LogBuilders.part_in};
ghost use Rattle.napt_log_text.specs.Logs as logs;

use crate::event::{LogEvent, header};
use napt_account::{InputPart, LogEntry, OpenLog, Shortage, effects_are_the_log, logs_go_on};
use napt_config::Config;
use std::alloc::AllocError;
use std::num::NonZeroU32;

const NANOSECONDS_A_SECOND: u64 = 1_000_000_000;

/// Appends the beginning of a log, or of a piece of one: the names of its fields, and the repeated
/// row of each entry that has not ended. Fails only if memory is refused.
pub fn add_opening(config: &Config, log: &OpenLog, text: &mut String) -> Result<(), AllocError>
    ensures { OnOk result (string_bytes text.new ≡ string_bytes text.old
        ++ logs.opening_text config.now log.now) }
{
    text.push_str(header())?;
    add_repeated(config, &log.entries, text)
}

/// Appends the rows of ended and new entries before any input. Fails only if memory is refused.
pub fn add_first(
    config: &Config,
    ended: &[LogEntry],
    made: &[LogEntry],
    text: &mut String,
) -> Result<(), AllocError>
    ensures { OnOk result (string_bytes text.new ≡ string_bytes text.old
        ++ logs.part_rows config.now (logs.first_part ended.now made.now)) }
{
    add_ended(config, ended, text)?;
    add_made(config, made, text)
}

/// Appends the rows that an input adds: the bindings that ended since the time of the input before,
/// the binding that its packet made, and the packet itself if no binding could be made for it.
/// Fails only if memory is refused.
#[inline(never)]
pub fn add_part(config: &Config, part: &InputPart, text: &mut String) -> Result<(), AllocError>
    ensures { OnOk result (string_bytes text.new ≡ string_bytes text.old
        ++ logs.part_rows config.now (part_in part.now)) }
{
    add_ended(config, &part.ended, text)?;
    add_made(config, &part.made, text)?;
    add_refused(config, &part.refused, text)
}

/// Returns whether a log in pieces of `each` seconds begins a new piece with an input: from `last`
/// to `now`, in ns, the clock passes a multiple of them. A log in one piece begins none, nor does
/// the first input of a run, which has no `last`.
#[inline(always)]
pub fn begins_piece(each: Option<NonZeroU32>, last: Option<u64>, now: u64) -> bool
    ensures { result ≡ logs.begins_piece (option_map non_zero_u32_get each) last now }
{
    let (Some(each), Some(last)) = (each, last) else {
        return false;
    };
    let length = u64::from(each.get()) * NANOSECONDS_A_SECOND;
    last / length < now / length
}

/// Appends the final row of each live binding, without an event. Fails only if memory is refused.
pub fn add_living(config: &Config, living: &[LogEntry], text: &mut String) -> Result<(), AllocError>
    ensures { OnOk result (string_bytes text.new ≡ string_bytes text.old
        ++ logs.living_rows config.now living.now) }
{
    for listed in living {
        LogEvent::Living(*listed).add_row(config, text)?;
    }
    Ok(())
}

/// Law: the log of a longer run begins with that of a shorter one, so that no row changes.
pub fn log_grows()
    ensures { logs.LogGrows }
{}

/// Law: the log of a run without its rows of live bindings, followed by the log of the run that
/// continues from there, is the log of the run over all inputs. This also holds if the second run
/// starts from a saved state. From the beginning of a piece on, the log is that of a run that
/// continues with a new log.
pub fn logs_join()
    ensures join { logs.LogsJoin }
    ensures saved { logs.SavedLogsJoin }
    ensures pieces { logs.PiecesStandAlone }
{
    logs_go_on();
}

/// Law: the rows that follow from the effects of a run's inputs are those of its log.
pub fn effects_have_the_rows()
    ensures { logs.EffectsHaveTheRows }
{
    effects_are_the_log();
}

fn add_made(config: &Config, made: &[LogEntry], text: &mut String) -> Result<(), AllocError>
    ensures { OnOk result (string_bytes text.new ≡ string_bytes text.old
        ++ logs.made_rows config.now made.now) }
{
    for listed in made {
        LogEvent::Made(*listed).add_row(config, text)?;
    }
    Ok(())
}

fn add_repeated(config: &Config, repeated: &[LogEntry], text: &mut String) -> Result<(), AllocError>
    ensures { OnOk result (string_bytes text.new ≡ string_bytes text.old
        ++ logs.repeated_rows config.now repeated.now) }
{
    for listed in repeated {
        LogEvent::Repeated(*listed).add_row(config, text)?;
    }
    Ok(())
}

fn add_ended(config: &Config, ended: &[LogEntry], text: &mut String) -> Result<(), AllocError>
    ensures { OnOk result (string_bytes text.new ≡ string_bytes text.old
        ++ logs.ended_rows config.now ended.now) }
{
    for listed in ended {
        LogEvent::Ended(*listed).add_row(config, text)?;
    }
    Ok(())
}

fn add_refused(config: &Config, refused: &[Shortage], text: &mut String) -> Result<(), AllocError>
    ensures { OnOk result (string_bytes text.new ≡ string_bytes text.old
        ++ logs.refused_rows config.now refused.now) }
{
    for shortage in refused {
        LogEvent::Refused(*shortage).add_row(config, text)?;
    }
    Ok(())
}
