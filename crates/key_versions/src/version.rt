/// A value, or `None`, from a revision on.
#[derive(Drop)]
pub struct Version<T> {
    pub revision: u32,
    pub value: Option<T>,
}
