//! The line that tells of a drill.
ghost use Rattle.std.specs.Prelude.{◌≡◌, ◌++◌, IfOk, OnOk, count_by, string_bytes};
ghost use Rattle.bucket_api.specs.BucketState.{IsBucket};
ghost use Rattle.drill_maker.specs.Summary.{is_refusal, bytes_in, counts_of, line_of, summary_of};

use bucket_api::Object;
use bucket_plain::Plain;
use fuse_head::out_head_of;
use history_text::Played;
use io_ports::{Bytes, NoMemory, Text};
use itoa::{Buffer, Integer};
use std::alloc::{AllocError, Global};

/// The line that tells of the drill of this seed, as it was played:
/// `drill S calls C refused E objects O bytes B generations G log K` and a line feed. `S` is the seed, `C` the number of
/// calls, `E` of replies that tell an error, `O` of live objects, `B` of the bytes that they have together, `G` the last
/// generation, and `K` the length of the log; all are decimal, and counted from what was played.
///
/// `NoMemory` comes where memory for the text was refused.
pub fn summary(alloc: Global, seed: u64, played: &Played) -> Result<Text, NoMemory>
    ensures ok { IfOk result (λ text. text ≡ summary_of seed played.now) }
{
    line(alloc, seed, counts_of(played))
}

/// What is counted of a history.
#[derive(Clone, Copy)]
struct Counts {
    /// The calls, in all.
    calls: u64,
    /// The replies that tell an error.
    refused: usize,
    /// The live objects.
    objects: usize,
    /// The sum of their sizes.
    bytes: u128,
    /// The last generation.
    generations: u64,
    /// The length of the log.
    log: u64,
}

/// What is counted of what was played.
fn counts_of(played: &Played) -> Counts
    ensures { result ≡ counts_of played.now }
{
    let generations = played.bucket.last();
    Counts {
        calls: played.calls.len(),
        refused: refusals(played.replies.as_slice()),
        objects: played.bucket.objects().len(),
        bytes: bytes_in(&played.bucket),
        generations,
        log: played.log.len(),
    }
}

/// The line that tells them.
fn line(alloc: Global, seed: u64, counts: Counts) -> Result<Text, NoMemory>
    ensures ok { IfOk result (λ text. text ≡ line_of seed counts) }
{
    let mut line = String::new(alloc);
    tell(&mut line, "drill ", seed)?;
    tell(&mut line, " calls ", counts.calls)?;
    tell(&mut line, " refused ", counts.refused)?;
    tell(&mut line, " objects ", counts.objects)?;
    tell(&mut line, " bytes ", counts.bytes)?;
    tell(&mut line, " generations ", counts.generations)?;
    tell(&mut line, " log ", counts.log)?;
    line.push_str("\n")?;
    Ok(Text::from_string(line))
}

/// Adds words and a number to the line.
fn tell<I: Integer>(line: &mut String, words: &str, number: I) -> Result<(), AllocError>
    ensures ok { OnOk result (string_bytes line.new ≡ string_bytes line.old ++ (words.now ++ I.text number)) }
{
    line.push_str(words)?;
    line.push_str(Buffer::new().format(number))
}

/// How many replies tell an error.
fn refusals(replies: &[Bytes]) -> usize
    ensures { result ≡ count_by is_refusal replies.now }
{
    replies
        .iter()
        .filter(|reply| is_refusal(reply.as_slice()))
        .count()
}

/// Whether the reply tells an error. A call without a reply has a frame of no bytes.
fn is_refusal(frame: &[u8]) -> bool
    ensures { result ≡ is_refusal frame.now }
{
    frame.len() >= 16 && out_head_of(frame).errno != 0
}

/// The sizes of all live objects together.
fn bytes_in(bucket: &Plain) -> u128
    requires { IsBucket bucket.now }
    ensures { result ≡ bytes_in bucket.now }
{
    let mut bytes = 0;
    for object in bucket.objects().values() {
        bytes += u128::from(object_size(object));
    }
    bytes
}

/// The size of an object's content.
fn object_size(object: &Object) -> u64
    ensures { result ≡ object.now.meta.size }
{
    object.meta.size
}
