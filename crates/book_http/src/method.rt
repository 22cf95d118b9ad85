//! The methods that the routes take.

ghost use Rattle.std.specs.Prelude.{◌≡◌, bytes_eq};
ghost use Rattle.book_http.specs.Methods.{method_text};

/// What is done with a route.
#[derive(Clone, Copy)]
pub enum Method {
    /// A report is read.
    Get,
    /// A dump or a tariff is submitted.
    Post,
}

impl Method {
    /// The name that a request has for it.
    pub fn text(self) -> &'static str
        ensures { result.now ≡ method_text self }
    {
        match self {
            Method::Get => "GET",
            Method::Post => "POST",
        }
    }
}

/// The name is this method's. Capital and small letters differ in methods.
pub fn is_method(name: &[u8], method: Method) -> bool
    ensures { result ≡ bytes_eq name.now (method_text method) }
{
    name == method.text().as_bytes()
}
