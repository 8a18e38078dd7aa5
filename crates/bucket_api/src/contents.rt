//! The laws of the content of a generation.
ghost use Rattle.bucket_api.specs.Contents.{LiveContentIsKnown, ContentStays, NewGenerationIsFresh};

/// States, for every log, what readers of a generation rest on: its content is what stands under it while it is live,
/// stays so as the log grows, and is nothing before the generation is given. It does nothing.
pub fn content_laws()
    ensures live { LiveContentIsKnown }
    ensures kept { ContentStays }
    ensures fresh { NewGenerationIsFresh }
{}
