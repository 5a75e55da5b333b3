//! The words of the command line.
ghost use Rattle.std.specs.Prelude.{◌≡◌, ◌≤◌, ◌∷◌, [], IfSome};
ghost use Rattle.mz_num.specs.Limits.{greatest_id};
ghost use Rattle.mz_run.specs.Arguments.{AreWorkers, IsInRange, form_in, form_of, form_of_words, number_in, workers_in};

use mz_num::read_digits;

/// The parameter file, where no word names another.
pub(crate) const USUAL_FILE: &str = "input.dat";

/// The number of workers, where no word says another.
pub(crate) const USUAL_WORKERS: u8 = 4;

/// What the words ask for.
#[derive(Drop)]
pub(crate) enum Form<'a> {
    /// The words have no form.
    Unknown,
    /// A project in files of its own, by its parameter file, and how many workers do it.
    File(&'a str, u8),
    /// A project that is made from this number, done by the usual workers.
    Generated(u32),
}

/// What words ask for: nothing but the usual file and workers, a file, a file and its number of workers, or `gen` and
/// the number of a project to make. Two words of which the first is `gen` are never a file and workers.
pub(crate) fn read_words(words: &[String]) -> Form<'_>
    ensures form { form_in result ≡ form_of words.now }
    ensures within { IsInRange result }
{
    match words {
        [] => Form::File(USUAL_FILE, USUAL_WORKERS),
        [file] => Form::File(file.as_str(), USUAL_WORKERS),
        [first, second] => form_of_two(first.as_str(), second.as_str()),
        _ => Form::Unknown,
    }
}

fn form_of_two<'a>(first: &'a str, second: &str) -> Form<'a>
    ensures form { form_in result ≡ form_of_words (first.now ∷ second.now ∷ []) }
    ensures within { IsInRange result }
{
    if first == "gen" {
        return match read_number(second.as_bytes()) {
            Some(number) => Form::Generated(number),
            None => Form::Unknown,
        };
    }
    match read_workers(second.as_bytes()) {
        Some(workers) => Form::File(first, workers),
        None => Form::Unknown,
    }
}

/// The number of workers that one to ten digits write, if it is from 1 to 60.
fn read_workers(word: &[u8]) -> Option<u8>
    ensures number { result ≡ workers_in word.now }
    ensures within { IfSome result AreWorkers }
{
    let number = read_digits(10, word)?;
    if number < 1 {
        return None;
    }
    if number > 60 {
        return None;
    }
    Some(number as u8)
}

/// The number of a project that one to ten digits write, if it is one that may be.
fn read_number(word: &[u8]) -> Option<u32>
    ensures number { result ≡ number_in word.now }
    ensures within { IfSome result (λ number. number ≤ greatest_id) }
{
    let number = read_digits(10, word)?;
    if number > 2_147_483_647 {
        return None;
    }
    Some(number as u32)
}
