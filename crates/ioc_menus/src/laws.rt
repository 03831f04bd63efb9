//! The texts and the numbers of the choices of a menu correspond one to one.
ghost use Rattle.ioc_menus.specs.Laws.{IsInverse};

use crate::menu::Menu;

/// On each menu, a text names a number if and only if it is the text of that number.
pub fn texts_are_choices(menu: Menu, number: u16, text: &[u8])
    ensures { IsInverse menu number text.now }
{}
