// The words of a script together.
use crate::verb::Verb;
use keycode::KeyCode;
use keymap::KeyMap;

// The maps of the verbs and of the names of the keys.
#[derive(Clone, Copy)]
pub struct Script<'w, 'v, 'k> {
    pub verbs: &'w KeyMap<'v, Verb>,
    pub keys: &'w KeyMap<'k, KeyCode>,
}
