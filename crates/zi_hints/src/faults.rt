//! Faults of documents and feeds in words.
ghost use Rattle.std.specs.Prelude.{◌≡◌};
ghost use Rattle.zi_hints.specs.Faults.{of_document, of_feed};

use zi_doc::DocKind;
use zi_faults::FeedKind;

/// A fault of a document.
pub fn of_document(kind: DocKind) -> &'static str
    ensures { result.now ≡ of_document kind }
{
    match kind {
        DocKind::NotUtf8 => "this is no UTF-8",
        DocKind::Encoding => "another encoding than UTF-8 is declared",
        DocKind::Doctype => "a document type may not stand here",
        DocKind::Syntax => "from here on this is no well-formed XML",
        DocKind::Entity => "this reference means nothing",
        DocKind::Prefix => "a namespace prefix isn't declared, or may not be",
        DocKind::Repeated => "an attribute stands twice",
        DocKind::Depth => "more than 64 elements stand one in another",
    }
}

/// A fault of a feed, or of a selection.
pub fn of_feed(kind: FeedKind) -> &'static str
    ensures { result.now ≡ of_feed kind }
{
    match kind {
        FeedKind::NotInterface => "the root isn't interface in the namespace of feeds",
        FeedKind::NoId => "an implementation has no id",
        FeedKind::BadVersion => "a version is missing, or is none",
        FeedKind::BadRange => "an expression of versions is none",
        FeedKind::BadArch => "arch isn't of its form",
        FeedKind::BadDigest => "a digest isn't of its form",
        FeedKind::BadPart => "a binding, command or dependency isn't of its form",
        FeedKind::BadStep => "a step of a retrieval isn't of its form",
        FeedKind::NoInterface => "an interface or src is missing",
        FeedKind::WrongUri => "the feed says another address than it was read under",
        FeedKind::BadStability => "a feed can't say this stability",
        FeedKind::BadAddress => "an address or a local path means nothing",
        FeedKind::SameId => "an id stands twice",
        FeedKind::NoPackage => "a package has no name",
    }
}
