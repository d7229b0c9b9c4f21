//! The words of causes, which serve replies and standard error.

ghost use Rattle.std.specs.Prelude.{◌≡◌, true, IfSome, option_map};
ghost use Rattle.csv_laws.specs.Plain.{is_plain};
ghost use Rattle.report_spec.specs.Replies.{limit_word, reason_words, text_why_word, why_words};
ghost use Rattle.reports.specs.Causes.{words_in};

use grammar_spec::TextWhy;
use plan_spec::{Limit, Why};
use report_spec::Reason;

/// Why a line is outside the grammar.
fn text_why_word(why: TextWhy) -> &'static [u8]
    ensures word { result.now ≡ text_why_word why }
    ensures plain { is_plain result.now ≡ true }
{
    match why {
        TextWhy::Long => b"long",
        TextWhy::Kind => b"kind",
        TextWhy::Words => b"words",
        TextWhy::Name => b"name",
        TextWhy::Number => b"number",
    }
}

/// Which limit is reached.
fn limit_word(limit: Limit) -> &'static [u8]
    ensures word { result.now ≡ limit_word limit }
    ensures plain { is_plain result.now ≡ true }
{
    match limit {
        Limit::Obstacles => b"obstacles",
        Limit::Corners => b"corners",
        Limit::Screens => b"screens",
        Limit::Routes => b"routes",
        Limit::Points => b"points",
    }
}

/// The word of a cause, and the name or the limit that it is about. None of them needs quotes.
#[tactic(auto, using(csv_laws::proofs::Plain::name_plain))]
fn why_parts(why: &Why) -> (&[u8], Option<&[u8]>)
    ensures words { why_words why.now ≡ words_in result.0.now (option_map (λ detail. detail.now) result.1) }
    ensures plain { is_plain result.0.now ≡ true }
    ensures detail { IfSome result.1 (λ detail. is_plain detail.now ≡ true) }
{
    match why {
        Why::Order => (b"order", None),
        Why::Count => (b"count", None),
        Why::Range => (b"range", None),
        Why::Repeat => (b"repeat", None),
        Why::Cross => (b"cross", None),
        Why::Outside => (b"outside", None),
        Why::Touch(name) => (b"touch", Some(name.bytes())),
        Why::Screen(name) => (b"screen", Some(name.bytes())),
        Why::NameTaken => (b"taken", None),
        Why::Missing => (b"missing", None),
        Why::Full(limit) => (b"full", Some(limit_word(*limit))),
        Why::Overlap(name) => (b"overlap", Some(name.bytes())),
    }
}

/// The word of a reason, and the name or the limit that it is about. None of them needs quotes.
pub fn reason_parts(reason: &Reason) -> (&[u8], Option<&[u8]>)
    ensures words { reason_words reason.now ≡ words_in result.0.now (option_map (λ detail. detail.now) result.1) }
    ensures plain { is_plain result.0.now ≡ true }
    ensures detail { IfSome result.1 (λ detail. is_plain detail.now ≡ true) }
{
    match reason {
        Reason::Text(why) => (text_why_word(*why), None),
        Reason::Edit(why) => why_parts(why),
        Reason::NoPoint => (b"nopoint", None),
        Reason::Closed => (b"closed", None),
        Reason::Lines => (b"lines", None),
    }
}
