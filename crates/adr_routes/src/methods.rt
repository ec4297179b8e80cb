//! The methods that a path takes.
ghost use Rattle.std.specs.Prelude.{◌≡◌};
ghost use Rattle.adr_routes.specs.Methods.{has};

/// Which of the four methods are taken.
#[derive(Clone, Copy, Debug, PartialEq, Eq)]
pub struct Methods {
    pub get: bool,
    pub post: bool,
    pub put: bool,
    pub delete: bool,
}

const NONE: Methods = Methods {
    get: false,
    post: false,
    put: false,
    delete: false,
};

pub(crate) const GET: Methods = Methods { get: true, ..NONE };

pub(crate) const POST: Methods = Methods { post: true, ..NONE };

pub(crate) const GET_POST: Methods = Methods { get: true, ..POST };

pub(crate) const GET_PUT: Methods = Methods { put: true, ..GET };

pub(crate) const PUT_DELETE: Methods = Methods {
    put: true,
    delete: true,
    ..NONE
};

pub(crate) const GET_PUT_DELETE: Methods = Methods {
    get: true,
    ..PUT_DELETE
};

impl Methods {
    /// Whether the word is `GET`, `POST`, `PUT` or `DELETE`, and that method is taken. Capitals matter.
    pub fn has(self, method: &[u8]) -> bool
        ensures { result ≡ has self method.now }
    {
        if method == b"GET".as_slice() {
            self.get
        } else if method == b"POST".as_slice() {
            self.post
        } else if method == b"PUT".as_slice() {
            self.put
        } else if method == b"DELETE".as_slice() {
            self.delete
        } else {
            false
        }
    }
}
