// The words of `run`.

ghost use Rattle.std.specs.Prelude.{◌≡◌, map, string_bytes, Some, IfSome};
ghost use Rattle.command_words.specs.Words as word;
ghost use Rattle.run_command.specs.Requests as spec;
ghost use Rattle.run_command.specs.Views.{optional_request, IsBounded};

use command_words::{is_file_name, is_short_name, number_within};
use slang_names::limits;

/// What `run IMAGE ENTRY X Y Z STEPS BUFFERS OUT` asks for: to run an entry of an image over so many groups and the text
/// of buffers, with so many steps for each invocation, and to put the text of the buffers afterwards.
#[derive(Clone, Copy)]
pub struct Run<'a> {
    pub image: &'a [u8],
    pub entry: &'a [u8],
    pub groups: [u32; 3],
    pub steps: u64,
    pub buffers: &'a [u8],
    pub out: &'a [u8],
}

/// How many groups there are along one way.
fn group_count(text: &str) -> Option<u32>
    ensures { result ≡ word.number_within spec.group_limit text.now }
{
    match number_within(text, u64::from(u32::MAX)) {
        Some(count) => Some(count as u32),
        None => None,
    }
}

/// How many groups there are in x, y and z.
fn groups(x: &str, y: &str, z: &str) -> Option<[u32; 3]>
    ensures { result ≡ spec.groups_of (word.number_within spec.group_limit x.now)
        (word.number_within spec.group_limit y.now) (word.number_within spec.group_limit z.now) }
{
    Some([group_count(x)?, group_count(y)?, group_count(z)?])
}

/// The words that are names.
#[derive(Clone, Copy)]
struct Names<'a> {
    image: &'a [u8],
    entry: &'a [u8],
    buffers: &'a [u8],
    out: &'a [u8],
}

/// The words that are numbers.
#[derive(Clone, Copy)]
struct Numbers<'a> {
    x: &'a str,
    y: &'a str,
    z: &'a str,
    steps: &'a str,
}

/// Whether these words can name the image, its entry, and the files of the buffers.
fn are_names(names: Names<'_>) -> bool
    ensures { result ≡ spec.are_names names.entry.image.now names.entry.entry.now names.entry.buffers.now names.entry.out.now }
{
    is_file_name(names.image)
        && is_short_name(names.entry)
        && is_file_name(names.buffers)
        && is_file_name(names.out)
}

/// The request of these words and numbers, where there are such numbers.
fn with_numbers<'a>(
    image: &'a [u8],
    entry: &'a [u8],
    groups: Option<[u32; 3]>,
    steps: Option<u64>,
    buffers: &'a [u8],
    out: &'a [u8],
) -> Option<Run<'a>>
    ensures request { optional_request result ≡ spec.with_numbers image.now entry.now groups steps buffers.now out.now }
    ensures steps { IfSome result (λ run. steps ≡ Some run.steps) }
{
    match (groups, steps) {
        (Some(groups), Some(steps)) => Some(Run {
            image,
            entry,
            groups,
            steps,
            buffers,
            out,
        }),
        _ => None,
    }
}

/// The request of these words, if they are its parts.
fn request_of<'a>(names: Names<'a>, numbers: Numbers<'_>) -> Option<Run<'a>>
    ensures request { optional_request result ≡ spec.request_of names.entry.image.now names.entry.entry.now numbers.entry.x.now numbers.entry.y.now numbers.entry.z.now
        numbers.entry.steps.now names.entry.buffers.now names.entry.out.now }
    ensures bounded { IfSome result IsBounded }
{
    if !are_names(names) {
        return None;
    }
    let groups = groups(numbers.x, numbers.y, numbers.z);
    let steps = number_within(numbers.steps, limits::STEPS);
    with_numbers(
        names.image,
        names.entry,
        groups,
        steps,
        names.buffers,
        names.out,
    )
}

/// The request of the words behind `run`, if they are one. It takes no memory.
pub fn parse_run(words: &[String]) -> Option<Run<'_>>
    ensures request { optional_request result ≡ spec.run_of (map string_bytes words.now) }
    ensures bounded { IfSome result IsBounded }
{
    if words.len() != 8 {
        return None;
    }
    request_of(
        Names {
            image: words[0].as_bytes(),
            entry: words[1].as_bytes(),
            buffers: words[6].as_bytes(),
            out: words[7].as_bytes(),
        },
        Numbers {
            x: words[2].as_str(),
            y: words[3].as_str(),
            z: words[4].as_str(),
            steps: words[5].as_str(),
        },
    )
}
