//! How often a condition is copied when its `If` is moved inside loops. Counts stand still at their
//! type's end.
ghost use Rattle.std.specs.Prelude.{◌≡◌, false};
ghost use Rattle.xq_normal.specs.Shapes.{ShapeTree, beside, branch_copies, branch_shape, capped, code_shape, copies, is_looped, turn_copies, HasLoops};

/// What of a body tells how often a condition that is moved into it is copied.
#[derive(Clone, Copy, Debug)]
pub(crate) enum Shape {
    /// No items.
    Empty,
    /// Items that aren't loops.
    Run,
    /// Loops, and maybe other items.
    Loops {
        /// How many copies there are, but for that of a run at the front.
        inner: u64,
        /// Whether a run stands at the front.
        front: bool,
        /// Whether a run stands at the end.
        back: bool,
    },
}

impl Shape {
    /// The shape of two bodies, one behind the other. Runs that meet are one run.
    pub(crate) fn beside(self, next: Shape) -> Shape
        ensures { (a b : ShapeTree) → self ≡ code_shape a → next ≡ code_shape b
            → result ≡ code_shape (beside a b) }
    {
        match (self, next) {
            (Shape::Empty, shape) | (shape, Shape::Empty) => shape,
            (Shape::Run, Shape::Run) => Shape::Run,
            (Shape::Run, Shape::Loops { inner, back, .. }) => Shape::Loops {
                inner,
                front: true,
                back,
            },
            (Shape::Loops { inner, front, back }, Shape::Run) => Shape::Loops {
                inner: inner.saturating_add(u64::from(!back)),
                front,
                back: true,
            },
            (
                Shape::Loops {
                    inner: first,
                    front,
                    back: between,
                },
                Shape::Loops {
                    inner: second,
                    front: begins,
                    back,
                },
            ) => {
                let meeting = u64::from(begins && !between);
                Shape::Loops {
                    inner: first.saturating_add(second.saturating_add(meeting)),
                    front,
                    back,
                }
            }
        }
    }

    /// How many copies moving a condition into the body makes.
    pub(crate) fn copies(self) -> u64
        ensures { (a : ShapeTree) → self ≡ code_shape a → result ≡ capped (copies a) }
    {
        match self {
            Shape::Empty => 0,
            Shape::Run => 1,
            Shape::Loops { inner, front, .. } => inner.saturating_add(u64::from(front)),
        }
    }

    pub(crate) fn is_looped(self) -> bool
        ensures { (a : ShapeTree) → self ≡ code_shape a → result ≡ is_looped a }
    {
        matches!(self, Shape::Loops { .. })
    }

    /// The shape of a loop over the body. An `If` goes into an empty body too.
    pub(crate) fn inside_loop(self) -> Shape
        ensures { (a : ShapeTree) → self ≡ code_shape a
            → result ≡ code_shape (HasLoops (turn_copies a) false false) }
    {
        let inner = match self {
            Shape::Empty => 1,
            _ => self.copies(),
        };
        Shape::Loops {
            inner,
            front: false,
            back: false,
        }
    }

    /// How many copies there are of the condition of an `If` with branches of these shapes.
    pub(crate) fn branch_copies(self, other: Shape) -> u64
        ensures { (a b : ShapeTree) → self ≡ code_shape a → other ≡ code_shape b
            → result ≡ capped (branch_copies a b) }
    {
        if self.is_looped() || other.is_looped() {
            self.copies().saturating_add(other.copies())
        } else {
            1
        }
    }

    /// The shape of what stands for an `If` with branches of these shapes.
    pub(crate) fn branched(self, other: Shape) -> Shape
        ensures { (a b : ShapeTree) → self ≡ code_shape a → other ≡ code_shape b
            → result ≡ code_shape (branch_shape a b) }
    {
        if self.is_looped() || other.is_looped() {
            self.beside(other)
        } else {
            Shape::Run
        }
    }
}
