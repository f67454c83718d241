/// The state, while its holder is inside. It can't be let go: only [`Turnstile::leave`](crate::Turnstile::leave) takes it.
pub struct Held<S> {
    pub(crate) state: S,
}
