/// The kind of a lent value, with what it holds: a text as a `T`, an array as an `I`, an object as an `M`.
#[derive(Drop)]
pub enum Kind<T, I, M> {
    /// `null`.
    Null,
    /// `true` or `false`.
    Flag(bool),
    /// A number from -9,223,372,036,854,775,808 to 9,223,372,036,854,775,807.
    Whole(i64),
    /// A string.
    Text(T),
    /// An array.
    List(I),
    /// An object.
    Object(M),
}
