//! What the texts that are given for the options ask for.

ghost use Rattle.std.specs.Prelude.{◌≡◌, IfOk, map, option_map};
ghost use Rattle.text_spec.specs.Numbers.{natural_of};
ghost use Rattle.options_spec.specs.Options as options;
ghost use Rattle.words_spec.specs.CommandWords as command;

use crate::arguments::texts_of;
use options_spec::{Form, Given, GivenText, Job, MAX_TRIAL_BOXES, MAX_WORKERS, Mode, Options};
use plan_text::natural;
use std::alloc::Global;
use text_spec::NoMemory;

/// The mode that a word names, but for that of a trial.
fn mode_of(word: &str) -> Option<Mode>
    ensures { result ≡ options.mode_of word.now }
{
    if word == "VGA" {
        Some(Mode::Vga)
    } else if word == "ISOVIST" {
        Some(Mode::Isovists)
    } else if word == "AXIAL" {
        Some(Mode::AxialMap)
    } else if word == "SEGMENT" {
        Some(Mode::Segments)
    } else if word == "CHECK" {
        Some(Mode::Check)
    } else {
        None
    }
}

/// The number of a text that is one from 1 to `most`.
fn number_up_to(most: u32, text: &str) -> Option<u32>
    ensures { result ≡ options.number_up_to most (natural_of text.now) }
{
    match natural(text.as_bytes()) {
        Some(number) if 1 <= number && number <= most => Some(number),
        _ => None,
    }
}

/// The analysis of a file's plan by a mode.
fn analyse<'a>(
    mode: Option<Mode>,
    file: Option<GivenText<'a>>,
    number: Option<GivenText<'a>>,
) -> Option<Job<'a>>
    ensures { result ≡ options.analyse mode file.entry number.entry }
{
    match (mode, file, number) {
        (Some(mode), Some(file), None) => Some(Job::Analyse(mode, file)),
        _ => None,
    }
}

/// The trial of a number of boxes, where there is one.
fn trial_of<'a>(boxes: Option<u32>) -> Option<Job<'a>>
    ensures { result ≡ options.trial_of_number boxes }
{
    match boxes {
        Some(boxes) => Some(Job::Trial(boxes)),
        None => None,
    }
}

/// The trial of the number that a text stands for, where no file is given.
fn trial_job<'a>(file: Option<GivenText<'a>>, number: Option<GivenText<'a>>) -> Option<Job<'a>>
    ensures { result ≡ options.trial_job file.entry number.entry }
{
    match (file, number) {
        (None, Some(number)) => trial_of(number_up_to(MAX_TRIAL_BOXES, number.as_str())),
        _ => None,
    }
}

/// What is to be done.
fn job_of<'a>(
    mode: Option<GivenText<'a>>,
    file: Option<GivenText<'a>>,
    number: Option<GivenText<'a>>,
) -> Option<Job<'a>>
    ensures { result ≡ options.job_of mode.entry file.entry number.entry }
{
    let mode = mode?;
    if mode.as_str() == "TRIAL" {
        trial_job(file, number)
    } else {
        analyse(mode_of(mode.as_str()), file, number)
    }
}

/// How many workers there are to be: one where nothing is said.
fn workers_of(text: Option<GivenText<'_>>) -> Option<usize>
    ensures { result ≡ options.workers_of text.entry }
{
    match text {
        None => Some(1),
        Some(text) => number_up_to(MAX_WORKERS as u32, text.as_str()).map(|number| number as usize),
    }
}

/// How records are to be printed: as text where nothing is said.
fn form_of_word(text: Option<GivenText<'_>>) -> Option<Form>
    ensures { result ≡ options.form_of_word text.entry }
{
    match text {
        None => Some(Form::Text),
        Some(text) if text.as_str() == "text" => Some(Form::Text),
        Some(text) if text.as_str() == "csv" => Some(Form::Csv),
        _ => None,
    }
}

/// All that was asked for, where each part of it stands for something.
fn options_by(
    job: Option<Job<'_>>,
    workers: Option<usize>,
    form: Option<Form>,
) -> Option<Options<'_>>
    ensures { result ≡ options.options_by job.entry workers form }
{
    match (job, workers, form) {
        (Some(job), Some(workers), Some(form)) => Some(Options { job, workers, form }),
        _ => None,
    }
}

/// The options that the texts stand for.
#[tactic(auto, unfolding(options_spec::specs::Options::options_of))]
fn options_of(given: Given<'_>) -> Option<Options<'_>>
    ensures { result ≡ options.options_of given.entry }
{
    let job = job_of(given.mode, given.file, given.number);
    options_by(job, workers_of(given.workers), form_of_word(given.format))
}

/// What the words of the command ask for, the program's name left out; `None` where the command doesn't take the words,
/// or their texts stand for nothing that it does.
#[tactic(auto, unfolding(words_spec::specs::CommandWords::options_in))]
pub fn options_in<'a>(alloc: Global, words: &'a [&'a str]) -> Result<Option<Options<'a>>, NoMemory>
    ensures { IfOk result (λ given. given ≡ command.options_in (map (λ word. word.now) words.now)) }
{
    match texts_of(alloc, words) {
        Ok(Some(given)) => Ok(options_of(given)),
        Ok(None) => Ok(None),
        Err(_out_of_memory) => Err(NoMemory),
    }
}
