//! How answers are written.

/// How an answer is written.
#[derive(Clone, Copy)]
pub enum Shape {
    /// As lines for people.
    Lines,
    /// As objects of JSON, each a line.
    Objects,
}

impl Shape {
    ghost use Rattle.std.specs.Prelude.{◌≡◌};
    ghost use Rattle.texts.specs.Shapes.{nothing_in};

    /// What is written where nothing is found: a line that says so, or no object.
    pub fn nothing(self) -> &'static str
        ensures { result.now ≡ nothing_in self }
    {
        match self {
            Shape::Lines => "nothing found\n",
            Shape::Objects => "",
        }
    }
}
