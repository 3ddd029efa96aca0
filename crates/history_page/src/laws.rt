// Laws of the definitions.
ghost use Rattle.history_page.specs.Guarding.{NoTagBegins};

/// What stands between the fixed parts of a page has no sign that begins a tag.
pub fn page_laws()
    ensures plain { NoTagBegins }
{}
