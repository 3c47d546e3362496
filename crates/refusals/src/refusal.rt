// The refusals, and the number by which each is told.
ghost use Rattle.std.specs.Prelude.{◌≡◌};
ghost use Rattle.refusals.specs.Numbers.{refusal_number};

/// Why a call is declined.
#[derive(Clone, Copy, PartialEq, Eq, Debug)]
pub enum Refusal {
    /// The width or the height of a mesh lies outside 2 to 8.
    MeshSize = 1,
    /// The count of lanes of a grid lies outside 1 to 4, or its depth outside 1 to 8.
    GridSize = 2,
    /// The item slots or the scratch that the caller lends are too few.
    TooFewSlots = 3,
    /// The number of a stream is above 63.
    NoSuchStream = 4,
    /// The stream is open already.
    AlreadyOpen = 5,
    /// The stream is not open.
    NotOpen = 6,
    /// The source or the target is no tile, or both are the same.
    BadEndpoints = 7,
    /// A demand or a capacity is 0.
    ZeroAmount = 8,
    /// A route has no hop, or more than 24.
    HopCount = 9,
    /// There is no such link, or no such lane.
    OffGrid = 10,
    /// The first link of a route does not start at the source.
    WrongStart = 11,
    /// The layout tells *never* of two hops in turn.
    NoTurn = 12,
    /// The lane falls, or does not rise where the layout tells *climb*.
    LaneTooLow = 13,
    /// The last link of a route does not end at the target.
    WrongEnd = 14,
    /// A link stands twice in a route.
    RepeatedLink = 15,
    /// The load of a link would pass the capacity.
    OverCapacity = 16,
    /// No route is acceptable.
    NoRoute = 17,
    /// The stream has items on the grid.
    ItemsOnGrid = 18,
    /// The lane that an item is to be put into is full.
    LaneFull = 19,
    /// The lane has no item.
    LaneEmpty = 20,
    /// The lane that the item would go to is full.
    Held = 21,
    /// The bytes end before a number does, with fewer than three of it there.
    NumberCut = 22,
    /// The bytes of a number are not the fewest, go on past the third, or make more than 65,535.
    NumberForm = 23,
    /// The version, the rule or the count of streams in the head of a plan is not allowed, or the head does not fit the grid.
    BadHead = 24,
    /// Bytes stand behind the last record of a plan.
    TrailingBytes = 25,
    /// The buffer for a plan or for a line is too short.
    BufferTooShort = 26,
}

impl Refusal {
    /// The number that stands for the refusal in answers and in the documents, 1 to 26.
    pub fn number(self) -> u8
        ensures { result ≡ refusal_number self }
    {
        self as u8
    }
}
