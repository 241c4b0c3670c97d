//! What is known of the struct where a statement stands.
use c_subset::Width;

/// A place in the struct.
#[derive(Clone, Copy)]
pub enum Place {
    /// A field.
    Field(u32),
    /// Of a field that bit.
    Bit(u32, u32),
}

/// The home of a place: a place, and its number.
#[derive(Clone, Copy)]
pub struct Home {
    /// The place.
    pub place: Place,
    /// Its number.
    pub value: u32,
}

/// Numbers.
#[derive(Drop)]
pub enum Numbers {
    /// None.
    Empty,
    /// One, and others.
    One(u32, Box<Numbers>),
}

/// Places. A field stands for its bits too.
#[derive(Drop)]
pub enum Places {
    /// None.
    Empty,
    /// One, and others.
    One(Place, Box<Places>),
}

/// What is known of the number at a place.
#[derive(Drop)]
pub enum Sets {
    /// Nothing.
    Anything,
    /// It is one of the first numbers where the home has its number, and one of the second ones
    /// elsewhere.
    OneOf(Numbers, Numbers),
}

/// What is known of a place, whose field has the unsigned type of that width.
#[derive(Drop)]
pub struct Row {
    /// The place.
    pub place: Place,
    /// The width of its field.
    pub width: Width,
    /// Its home.
    pub home: Home,
    /// What is known of its number.
    pub sets: Sets,
}

/// What is known of places.
#[derive(Drop)]
pub enum Rows {
    /// Nothing.
    End,
    /// This of one, and that of others.
    More(Row, Box<Rows>),
}

/// What is known where a statement stands.
#[derive(Drop)]
pub enum Known {
    /// No run comes here.
    Never,
    /// This of places.
    Of(Rows),
}

/// A number of the unsigned type of that width.
#[derive(Clone, Copy)]
pub struct Constant {
    /// The width.
    pub width: Width,
    /// The number.
    pub number: u32,
}

/// The question whether a place, whose field has the unsigned type of that width, has a number.
#[derive(Clone, Copy)]
pub struct Question {
    /// The place.
    pub place: Place,
    /// The width of its field.
    pub width: Width,
    /// The number.
    pub number: u32,
}

/// What a place tells of its home.
#[derive(Clone, Copy)]
pub struct News {
    /// The home.
    pub home: Home,
    /// Whether it has its number.
    pub way: bool,
}

/// What a store puts into a field.
#[derive(Clone, Copy)]
pub enum Written {
    /// Something else.
    Other,
    /// That number.
    Number(u32),
    /// Its number with the bits of a mask set.
    SetsBits(u32),
    /// Its number with only the bits of a mask.
    KeepsBits(u32),
}

/// What becomes of the number at a place.
#[derive(Clone, Copy)]
pub enum Change {
    /// It stays.
    Stays,
    /// It becomes that one.
    Becomes(u32),
    /// It becomes any.
    Varies,
}
