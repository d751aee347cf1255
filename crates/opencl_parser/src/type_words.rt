//! The words of which types are made.

ghost use Rattle.std.specs.Prelude.{◌≡◌};
ghost use Rattle.opencl_tokens.specs.Seen.{lexeme_kind};
ghost use Rattle.opencl_tokens.specs.Spelling.{word as word_seen, scalar as scalar_seen};
ghost use Rattle.opencl_tree.specs.View.{qualifiers as qualifiers_seen, space as space_seen};
ghost use Rattle.opencl_parser.specs.TypeNames as names;
ghost use Rattle.opencl_parser.specs.View.{all_known, maybe_rank, base_named, written as written_seen, maybe_written, word_part as word_part_seen, typed as typed_seen, type_part as type_part_seen, maybe_base, maybe_qualified, maybe_construct};

use crate::stops::{Construct, ParseFault};
use opencl_tokens::{LexemeKind, Scalar, Word};
use opencl_tree::types::{Qualifiers, Space};

/// A name that a `typedef` made, and whether it is that of a vector.
#[derive(Clone, Copy)]
pub struct Known<'a> {
    pub name: &'a str,
    pub is_vector: bool,
}

/// `char`, `short` and `long`, with which `int` and a sign may stand.
#[derive(Clone, Copy)]
pub enum Rank {
    Chars,
    Shorts,
    Longs,
}

/// A type that one word names; the name of an alias is lent.
#[derive(Clone, Copy)]
pub enum Named<'a> {
    Void,
    Numbers(Scalar, u8),
    Alias(&'a str),
}

/// The words that name a type, so far.
#[derive(Clone, Copy)]
pub enum Written<'a> {
    Nothing,
    Words {
        unsigned: Option<bool>,
        rank: Option<Rank>,
        with_int: bool,
    },
    Whole {
        base: Named<'a>,
        is_vector: bool,
    },
}

/// The words and the qualifiers so far.
#[derive(Clone, Copy)]
pub struct Typed<'a> {
    pub written: Written<'a>,
    pub qualifiers: Qualifiers,
}

/// What a lexeme is to the words of a type.
#[derive(Clone, Copy)]
pub enum WordPart<'a> {
    NoPart,
    More(Written<'a>),
    Wrong(ParseFault),
}

/// What a lexeme is to a type.
#[derive(Clone, Copy)]
pub enum TypePart<'a> {
    NoPart,
    More(Typed<'a>),
    Wrong(ParseFault),
}

/// Whether the name is that of a vector type; none where it is no type.
pub fn look_up(types: &[Known], name: &str) -> Option<bool>
    ensures { result ≡ names.known (all_known types.now) name.now }
{
    for known in types {
        if known.name == name {
            return Some(known.is_vector);
        }
    }
    None
}

fn with_sign(unsigned: bool, written: Written) -> Option<Written>
    ensures { maybe_written result ≡ names.with_sign unsigned (written_seen written.entry) }
{
    match written {
        Written::Nothing => Some(Written::Words {
            unsigned: Some(unsigned),
            rank: None,
            with_int: false,
        }),
        Written::Words {
            unsigned: None,
            rank,
            with_int,
        } => Some(Written::Words {
            unsigned: Some(unsigned),
            rank,
            with_int,
        }),
        _ => None,
    }
}

fn with_char(written: Written) -> Option<Written>
    ensures { maybe_written result ≡ names.with_char (written_seen written.entry) }
{
    match written {
        Written::Nothing => Some(Written::Words {
            unsigned: None,
            rank: Some(Rank::Chars),
            with_int: false,
        }),
        Written::Words {
            unsigned,
            rank: None,
            with_int: false,
        } => Some(Written::Words {
            unsigned,
            rank: Some(Rank::Chars),
            with_int: false,
        }),
        _ => None,
    }
}

fn with_short(written: Written) -> Option<Written>
    ensures { maybe_written result ≡ names.with_short (written_seen written.entry) }
{
    match written {
        Written::Nothing => Some(Written::Words {
            unsigned: None,
            rank: Some(Rank::Shorts),
            with_int: false,
        }),
        Written::Words {
            unsigned,
            rank: None,
            with_int,
        } => Some(Written::Words {
            unsigned,
            rank: Some(Rank::Shorts),
            with_int,
        }),
        _ => None,
    }
}

fn with_long(written: Written) -> Option<Written>
    ensures { maybe_written result ≡ names.with_long (written_seen written.entry) }
{
    match written {
        Written::Nothing => Some(Written::Words {
            unsigned: None,
            rank: Some(Rank::Longs),
            with_int: false,
        }),
        Written::Words {
            unsigned,
            rank: None,
            with_int,
        } => Some(Written::Words {
            unsigned,
            rank: Some(Rank::Longs),
            with_int,
        }),
        _ => None,
    }
}

fn with_int(written: Written) -> Option<Written>
    ensures { maybe_written result ≡ names.with_int (written_seen written.entry) }
{
    match written {
        Written::Nothing => Some(Written::Words {
            unsigned: None,
            rank: None,
            with_int: true,
        }),
        Written::Words {
            unsigned,
            rank: None,
            with_int: false,
        } => Some(Written::Words {
            unsigned,
            rank: None,
            with_int: true,
        }),
        Written::Words {
            unsigned,
            rank: Some(Rank::Shorts),
            with_int: false,
        } => Some(Written::Words {
            unsigned,
            rank: Some(Rank::Shorts),
            with_int: true,
        }),
        Written::Words {
            unsigned,
            rank: Some(Rank::Longs),
            with_int: false,
        } => Some(Written::Words {
            unsigned,
            rank: Some(Rank::Longs),
            with_int: true,
        }),
        _ => None,
    }
}

fn with_whole<'a>(base: Named<'a>, is_vector: bool, written: Written) -> Option<Written<'a>>
    ensures { maybe_written result ≡ names.with_whole (base_named base.entry) is_vector (written_seen written.entry) }
{
    match written {
        Written::Nothing => Some(Written::Whole { base, is_vector }),
        _ => None,
    }
}

fn scalar_of(unsigned: Option<bool>, rank: Option<Rank>) -> Scalar
    ensures { scalar_seen result ≡ names.scalar_of unsigned (maybe_rank rank) }
{
    match (unsigned, rank) {
        (Some(true), None) => Scalar::Uint,
        (Some(true), Some(Rank::Chars)) => Scalar::Uchar,
        (Some(true), Some(Rank::Shorts)) => Scalar::Ushort,
        (Some(true), Some(Rank::Longs)) => Scalar::Ulong,
        (_, None) => Scalar::Int,
        (_, Some(Rank::Chars)) => Scalar::Char,
        (_, Some(Rank::Shorts)) => Scalar::Short,
        (_, Some(Rank::Longs)) => Scalar::Long,
    }
}

/// The type that was written, and whether it is a vector; none where no word of it stands.
pub fn base_of<'a>(written: Written<'a>) -> Option<(Named<'a>, bool)>
    ensures { maybe_base result ≡ names.base_of (written_seen written.entry) }
{
    match written {
        Written::Nothing => None,
        Written::Words { unsigned, rank, .. } => Some((
            Named::Numbers(scalar_of(unsigned, rank), 1),
            false,
        )),
        Written::Whole { base, is_vector } => Some((base, is_vector)),
    }
}

fn added<'a>(written: Option<Written<'a>>) -> WordPart<'a>
    ensures { word_part_seen result ≡ names.added (maybe_written written.entry) }
{
    match written {
        Some(written) => WordPart::More(written),
        None => WordPart::Wrong(ParseFault::Expected),
    }
}

fn whole<'a>(scalar: Scalar, width: u8, written: Written<'a>) -> WordPart<'a>
    ensures { word_part_seen result ≡ names.whole (scalar_seen scalar) width (written_seen written.entry) }
{
    match scalar {
        Scalar::Long | Scalar::Ulong => WordPart::Wrong(ParseFault::LeftOut(Construct::Long)),
        Scalar::Double => WordPart::Wrong(ParseFault::LeftOut(Construct::Double)),
        _ => added(with_whole(Named::Numbers(scalar, width), 1 < width, written)),
    }
}

fn left_out(name: &str) -> Option<Construct>
    ensures { maybe_construct result ≡ names.left_out name.now }
{
    if name == "image2d_t" {
        return Some(Construct::Image);
    }
    if name == "image3d_t" {
        return Some(Construct::Image);
    }
    if name == "image2d_array_t" {
        return Some(Construct::Image);
    }
    if name == "image1d_t" {
        return Some(Construct::Image);
    }
    if name == "image1d_buffer_t" {
        return Some(Construct::Image);
    }
    if name == "image1d_array_t" {
        return Some(Construct::Image);
    }
    if name == "sampler_t" {
        return Some(Construct::Sampler);
    }
    if name == "event_t" {
        return Some(Construct::Event);
    }
    None
}

fn unknown<'a>(construct: Option<Construct>) -> WordPart<'a>
    ensures { word_part_seen result ≡ names.unknown (maybe_construct construct) }
{
    match construct {
        Some(construct) => WordPart::Wrong(ParseFault::LeftOut(construct)),
        None => WordPart::NoPart,
    }
}

fn alias<'a>(name: &'a str, found: Option<bool>) -> WordPart<'a>
    ensures { word_part_seen result ≡ names.alias name.now found }
{
    match found {
        Some(is_vector) => WordPart::More(Written::Whole {
            base: Named::Alias(name),
            is_vector,
        }),
        None => unknown(left_out(name)),
    }
}

fn name_part<'a>(types: &[Known], name: &'a str, written: Written<'a>) -> WordPart<'a>
    ensures { word_part_seen result ≡ names.named (all_known types.now) name.now (written_seen written.entry) }
{
    match written {
        Written::Nothing => alias(name, look_up(types, name)),
        _ => WordPart::NoPart,
    }
}

fn word_part<'a>(word: Word, written: Written<'a>) -> WordPart<'a>
    ensures { word_part_seen result ≡ names.word_part (word_seen word) (written_seen written.entry) }
{
    match word {
        Word::Void => added(with_whole(Named::Void, false, written)),
        Word::Unsigned => added(with_sign(true, written)),
        Word::Signed => added(with_sign(false, written)),
        Word::Char => added(with_char(written)),
        Word::Short => added(with_short(written)),
        Word::Int => added(with_int(written)),
        Word::Float => added(with_whole(Named::Numbers(Scalar::Float, 1), false, written)),
        Word::Half => added(with_whole(Named::Numbers(Scalar::Half, 1), false, written)),
        Word::Long => added(with_long(written)),
        Word::Double => WordPart::Wrong(ParseFault::LeftOut(Construct::Double)),
        Word::Struct | Word::Union => WordPart::Wrong(ParseFault::LeftOut(Construct::Structure)),
        Word::Enum => WordPart::Wrong(ParseFault::LeftOut(Construct::Enumeration)),
        Word::ReadOnly | Word::WriteOnly | Word::ReadWrite => {
            WordPart::Wrong(ParseFault::LeftOut(Construct::Image))
        }
        _ => WordPart::NoPart,
    }
}

fn base_part<'a>(types: &[Known], kind: LexemeKind<'a>, written: Written<'a>) -> WordPart<'a>
    ensures { word_part_seen result ≡ names.base_part (all_known types.now) (lexeme_kind kind.entry) (written_seen written.entry) }
{
    match kind {
        LexemeKind::Word(word) => word_part(word, written),
        LexemeKind::Type(scalar, width) => whole(scalar, width, written),
        LexemeKind::Name(name) => name_part(types, name, written),
        _ => WordPart::NoPart,
    }
}

fn in_space(space: Space, qualifiers: Qualifiers) -> Option<Qualifiers>
    ensures { maybe_qualified result ≡ names.in_space (space_seen space) (qualifiers_seen qualifiers) }
{
    match qualifiers.space {
        None => Some(Qualifiers {
            space: Some(space),
            constant: qualifiers.constant,
            volatile: qualifiers.volatile,
            restrict: qualifiers.restrict,
        }),
        Some(_) => None,
    }
}

/// With one qualifier more; none where the lexeme is none, or names a second space.
pub fn qualified(qualifiers: Qualifiers, kind: LexemeKind) -> Option<Qualifiers>
    ensures { maybe_qualified result ≡ names.qualified (qualifiers_seen qualifiers) (lexeme_kind kind.entry) }
{
    let LexemeKind::Word(word) = kind else {
        return None;
    };
    match word {
        Word::Const => Some(Qualifiers {
            space: qualifiers.space,
            constant: true,
            volatile: qualifiers.volatile,
            restrict: qualifiers.restrict,
        }),
        Word::Volatile => Some(Qualifiers {
            space: qualifiers.space,
            constant: qualifiers.constant,
            volatile: true,
            restrict: qualifiers.restrict,
        }),
        Word::Restrict => Some(Qualifiers {
            space: qualifiers.space,
            constant: qualifiers.constant,
            volatile: qualifiers.volatile,
            restrict: true,
        }),
        Word::Global => in_space(Space::Global, qualifiers),
        Word::Local => in_space(Space::Local, qualifiers),
        Word::Constant => in_space(Space::Constant, qualifiers),
        Word::Private => in_space(Space::Private, qualifiers),
        _ => None,
    }
}

/// The qualifiers of a type that has none.
pub fn unqualified() -> Qualifiers
    ensures { qualifiers_seen result ≡ names.unqualified }
{
    Qualifiers {
        space: None,
        constant: false,
        volatile: false,
        restrict: false,
    }
}

/// No words and no qualifiers.
pub fn untyped<'a>() -> Typed<'a>
    ensures { typed_seen result ≡ names.untyped }
{
    Typed {
        written: Written::Nothing,
        qualifiers: unqualified(),
    }
}

fn with_base<'a>(qualifiers: Qualifiers, part: WordPart<'a>) -> TypePart<'a>
    ensures { type_part_seen result ≡ names.with_base (qualifiers_seen qualifiers) (word_part_seen part.entry) }
{
    match part {
        WordPart::NoPart => TypePart::NoPart,
        WordPart::More(written) => TypePart::More(Typed {
            written,
            qualifiers,
        }),
        WordPart::Wrong(fault) => TypePart::Wrong(fault),
    }
}

/// What the lexeme is to the type that was begun.
pub fn grown<'a>(types: &[Known], begun: Typed<'a>, kind: LexemeKind<'a>) -> TypePart<'a>
    ensures { type_part_seen result ≡ names.grown (all_known types.now) (typed_seen begun.entry) (lexeme_kind kind.entry) }
{
    match qualified(begun.qualifiers, kind) {
        Some(qualifiers) => TypePart::More(Typed {
            written: begun.written,
            qualifiers,
        }),
        None => with_base(begun.qualifiers, base_part(types, kind, begun.written)),
    }
}

/// A type may begin here.
pub fn starts_type(types: &[Known], kind: LexemeKind) -> bool
    ensures { result ≡ names.starts_type (all_known types.now) (lexeme_kind kind.entry) }
{
    !matches!(grown(types, untyped(), kind), TypePart::NoPart)
}
