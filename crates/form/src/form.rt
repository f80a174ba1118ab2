// An opened form. Its points and its move list stay with the caller, who lends both to each call, as the five calls are defined. Each call
// says that the setting stays: a `&mut` to a form gives no type that would.
use history::State;

// What a form is opened on, which no call changes.
#[derive(Drop)]
pub struct Setting<'f, H, S> {
    pub(crate) hierarchy: &'f H,
    pub(crate) scheme: &'f S,
}

#[derive(Drop)]
pub struct Form<'f, H, S> {
    pub(crate) setting: Setting<'f, H, S>,
    pub(crate) state: State,
}
