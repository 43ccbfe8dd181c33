//! One value for each of four sides (`Sides`), and a run of one character (`Indent`).
ghost use Rattle.std.specs.Prelude.{◌≡◌};

/// A run of one character: columns at the left and right, lines at the top and bottom.
#[derive(Clone, Copy, Debug, PartialEq, Eq, PartialOrd, Ord, Hash)]
pub struct Indent {
    /// The number of columns or lines.
    pub size: usize,
    /// The character that fills it.
    pub fill: char,
}

impl Indent {
    /// Creates `size` columns or lines of a character.
    pub fn new(size: usize, fill: char) -> Indent
        ensures { result ≡ record { size = size; fill = fill } }
    {
        Indent { size, fill }
    }

    /// Creates `size` columns or lines of spaces.
    pub fn spaced(size: usize) -> Indent
        ensures { result ≡ record { size = size; fill = 32 } }
    {
        Indent { size, fill: ' ' }
    }

    /// Creates an empty indent.
    pub fn zero() -> Indent
        ensures { result ≡ record { size = 0; fill = 32 } }
    {
        Indent::spaced(0)
    }
}

/// One value for each side.
#[derive(Clone, Copy, Debug, PartialEq, Eq, PartialOrd, Ord, Hash)]
pub struct Sides<T> {
    /// The left side.
    pub left: T,
    /// The right side.
    pub right: T,
    /// The top.
    pub top: T,
    /// The bottom.
    pub bottom: T,
}

impl<T> Sides<T> {
    /// Creates the values for left, right, top and bottom, in this order.
    pub fn new(left: T, right: T, top: T, bottom: T) -> Sides<T>
        ensures { result ≡ record { left = left; right = right; top = top; bottom = bottom } }
    {
        Sides {
            left,
            right,
            top,
            bottom,
        }
    }
}

impl<T: Copy> Sides<T> {
    /// Creates the same value for all sides.
    pub fn filled(value: T) -> Sides<T>
        ensures { result ≡ record { left = value; right = value; top = value; bottom = value } }
    {
        Sides::new(value, value, value, value)
    }
}
