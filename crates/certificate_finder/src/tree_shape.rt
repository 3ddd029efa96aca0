// How large a tree is.
ghost use Rattle.std.specs.Prelude.{◌<◌, ◌^◌};

/// How many rows a binary tree has below its root, and how many leaves.
#[derive(Clone, Copy)]
pub(crate) struct TreeShape {
    /// The rows.
    pub(crate) depth: usize,
    /// The leaves: two to the power of the rows.
    pub(crate) width: usize,
}

impl TreeShape {
    ghost use Rattle.certificate_finder.specs.Trees.{IsShape};

    /// The least tree with more leaves than this.
    pub(crate) fn over(count: usize) -> TreeShape
        requires { count < 2 ^ 31 }
        ensures { IsShape count result }
    {
        let mut depth = 0;
        let mut width = 1;
        while width <= count {
            width *= 2;
            depth += 1;
        }
        TreeShape { depth, width }
    }
}
