/// Where a row bound is: before or after all rows whose key begins with the bound's values.
#[derive(Clone, Copy, PartialEq, Eq, Debug)]
pub enum Edge {
    /// Before all of them: a range that begins here has them, and a range that ends here has none of them.
    Before,
    /// After all of them: a range that begins here has none of them, and a range that ends here has them.
    After,
}
