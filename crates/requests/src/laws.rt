// What holds of every request.

ghost use Rattle.requests.specs.Widths.{LinesHaveWidths, RequestsHaveWidths};

/// An input of a request has as many words for each component as its kind has fields, and so has the input of a line.
pub fn requests_have_widths()
    ensures requests { RequestsHaveWidths }
    ensures lines { LinesHaveWidths }
{}
