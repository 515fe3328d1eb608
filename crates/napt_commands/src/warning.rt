//! Warnings about a run whose captures do not seem to belong to the configuration.

use crate::loss_counts::LossCounts;
use crate::outside_capture::OutsideCapture;

/// Prints that the captures are swapped, or that many packets from outside were dropped, the
/// probable cause, and what to do. `under` names the configuration, if there are several.
pub fn print_warning<R: Eprint>(
    rt: &R,
    outside: OutsideCapture,
    under: Option<&str>,
    losses: &LossCounts,
) {
    let is_swapped = losses.are_swapped();
    let is_lost = match outside {
        OutsideCapture::Packets => losses.exceeds_fifth_unmet(),
        OutsideCapture::Replies => losses.exceeds_half_not_ours() || losses.exceeds_fifth_unbound(),
    };
    if !is_swapped && !is_lost {
        return;
    }
    let _ = match under {
        Some(path) => eprint!(rt; "explain: under {path}: "),
        None => eprint!(rt; "explain: "),
    };
    if is_swapped {
        let (all, name) = (losses.all, outside.option());
        let _ = eprintln!(rt;
            "no packet of --inside comes from an inside host, and {} of {all} of {name} do: are the captures swapped?",
            losses.spoofed_from_inside
        );
    } else {
        print_losses(rt, outside, losses);
    }
}

fn print_losses<R: Eprint>(rt: &R, outside: OutsideCapture, losses: &LossCounts) {
    let (all, unmet) = (losses.all, losses.unmet());
    let _ = match outside {
        OutsideCapture::Packets if losses.refused > 0 => eprintln!(rt;
            "{unmet} of {all} packets from outside are dropped as no-binding or not-ours
  {} packets from inside got no binding, because of the quota or for lack of a free number: answers to them are dropped.
  If that does not account for it, the captured gateway chose other numbers or addresses: give --replies, instead of --outside",
            losses.refused
        ),
        OutsideCapture::Packets => eprintln!(rt;
            "{unmet} of {all} packets from outside are dropped as no-binding or not-ours
  the captured gateway seems to have chosen other numbers or addresses: connections count as never answered here,
  and figures of bindings are wrong. Give the packets that inside hosts received as --replies, instead of --outside"
        ),
        OutsideCapture::Replies if losses.exceeds_half_not_ours() => eprintln!(rt;
            "{} of {all} replies are not to an inside host: is this an outside capture? (--outside)",
            losses.not_ours
        ),
        OutsideCapture::Replies if losses.refused > 0 => eprintln!(rt;
            "{} of {all} replies find no binding: {} packets from inside got none, because of the quota or for lack of a free number",
            losses.no_binding, losses.refused
        ),
        OutsideCapture::Replies => eprintln!(rt;
            "{} of {all} replies find no binding: are they of the same time and hosts as the inside capture?",
            losses.no_binding
        ),
    };
}
