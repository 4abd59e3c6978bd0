//! What the arguments after a command's name may be.

ghost use Rattle.std.specs.Prelude.{◌↔◌, Contains, IsTrue};
ghost use Rattle.command_words.specs.Scanning.{scanned_form};

/// The names of positionals, in their order, the names of options, and those of the options that are required.
#[derive(Clone, Copy)]
pub(crate) struct FormNames<'a> {
    pub(crate) positionals: &'a [&'a str],
    pub(crate) options: &'a [&'a str],
    pub(crate) required: &'a [&'a str],
}

impl FormNames<'_> {
    /// Whether there is an option of this name.
    pub(crate) fn has_option(&self, name: &str) -> bool
        ensures { IsTrue result ↔ Contains (scanned_form self.now).options name.now }
    {
        self.options.contains(&name)
    }
}
